// How the lanes lie below each other, and what is said at their left.
use crate::scale::Size;
use crate::{lanes, scale};
use plan::{MOST_TASKS, Plan};
use show_words::get::entry;
use show_words::places::Heights;
use show_words::{put, svg};
use std::alloc::AllocError;

// The row of deadlines above the bars of a lane, the row of numbers below them, and below that the row of not-before instants.
const FLAGS: u64 = 240;

const NUMBERS: u64 = 170;

const BRACKETS: u64 = 255;

// The lanes that have such rows, as sets.
#[derive(Clone, Copy)]
pub struct Having {
    pub flags: u64,
    pub numbers: u64,
    pub brackets: u64,
}

// Where a lane begins, where its bars do and where its row of not-before instants.
#[derive(Clone, Copy, Default)]
pub struct Row {
    pub top: u64,
    pub bar: u64,
    pub foot: u64,
}

// The rows by lane, and where the last one ends.
#[derive(Clone, Copy)]
pub struct Rows {
    pub lanes: [Row; lanes::MOST_LANES],
    pub bottom: u64,
}

// A height, for a lane in a set that has it, and 0 for another one.
fn part(having: u64, lane: usize, height: u64) -> u64 {
    if task_set::contains(having, lane) {
        height
    } else {
        0
    }
}

// The row of a lane that begins at a place.
fn row_at(y: u64, s: &Size, h: &Having, lane: usize) -> Row {
    let bar = y
        .saturating_add(s.pad)
        .saturating_add(part(h.flags, lane, FLAGS));
    let foot = bar
        .saturating_add(s.bar)
        .saturating_add(part(h.numbers, lane, NUMBERS));
    Row { top: y, bar, foot }
}

// The rows of all lanes. A lane that is not there ends where it begins.
pub fn laid(p: &Plan, s: &Size, h: &Having) -> Rows {
    let mut rows = [Row::default(); lanes::MOST_LANES];
    let mut y = s.top;
    for (i, row) in rows.iter_mut().enumerate() {
        *row = row_at(y, s, h, i);
        if lanes::is_there(p, i) {
            y = row
                .foot
                .saturating_add(s.pad)
                .saturating_add(part(h.brackets, i, BRACKETS));
        }
    }
    Rows {
        lanes: rows,
        bottom: y,
    }
}

// Where the bar of each task begins and the row below it.
pub fn by_task(lanes: &[usize; MOST_TASKS], rows: &Rows, bar: u64) -> Heights {
    let of_tasks = lanes.map(|lane| entry(&rows.lanes, lane));
    Heights {
        bars: of_tasks.map(|row| row.bar),
        feet: of_tasks.map(|row| row.foot),
        bar,
    }
}

// The name of a lane; a type with one unit needs no number of it.
pub fn name(out: &mut Vec<u8>, p: &Plan, lane: usize) -> Result<(), AllocError> {
    put::words(out, b"type ", lanes::kind_of(lane) as u64, b"")?;
    if 1 < lanes::units_of(p, lanes::kind_of(lane)) {
        put::words(out, b", unit ", lanes::unit_of(lane) as u64, b"")?;
    }
    Ok(())
}

// The line above a lane, stronger above the first of a type.
fn upper_line(out: &mut Vec<u8>, lane: usize, y: u64) -> Result<(), AllocError> {
    if lanes::is_first(lane) {
        svg::line(out, b"type", 100, y, scale::RIGHT, y)
    } else {
        svg::line(out, b"unit", scale::LEFT, y, scale::RIGHT, y)
    }
}

fn lane_row(
    out: &mut Vec<u8>,
    p: &Plan,
    lane: usize,
    row: &Row,
    s: &Size,
) -> Result<(), AllocError> {
    let middle = row.bar.saturating_add(s.bar / 2);
    upper_line(out, lane, row.top)?;
    svg::begin_words(out, b"lane", scale::LEFT - 100, middle.saturating_add(42))?;
    name(out, p, lane)?;
    svg::end_words(out)
}

// The lanes themselves, without their bars.
pub fn draw(out: &mut Vec<u8>, p: &Plan, rows: &Rows, s: &Size) -> Result<(), AllocError> {
    for (lane, row) in rows.lanes.iter().enumerate() {
        if lanes::is_there(p, lane) {
            lane_row(out, p, lane, row, s)?;
        }
    }
    Ok(())
}
