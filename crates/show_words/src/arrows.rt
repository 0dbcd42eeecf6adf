// The arrows: from the finish of a task to the start of one that waits for it.
use crate::get::entry;
use crate::places::{Heights, Places, middle};
use crate::{put, svg};
use plan::{MOST_TASKS, Plan};
use std::alloc::AllocError;
use std::cmp::Ordering;

// A straight arrow.
fn straight(out: &mut Vec<u8>, x1: u64, y1: u64, x2: u64, y2: u64) -> Result<(), AllocError> {
    svg::begin_path(out)?;
    svg::step(out, b"M", x1, y1)?;
    svg::step(out, b"L", x2, y2)?;
    svg::end_path(out)
}

// An arrow within a lane, as an arc above the bars that may lie between.
fn arc(out: &mut Vec<u8>, x1: u64, x2: u64, y: u64, bar: u64) -> Result<(), AllocError> {
    let rise = bar.saturating_add(110).min(x2.saturating_sub(x1));
    svg::begin_path(out)?;
    svg::step(out, b"M", x1, y)?;
    svg::step(out, b"Q", middle(x1, x2), y.saturating_sub(rise))?;
    svg::step(out, b" ", x2, y)?;
    svg::end_path(out)
}

// An arrow between two tasks: within a lane, or between the corners that are nearest, so that no bar of the two lanes hides it.
fn arrow(
    out: &mut Vec<u8>,
    a: &Places,
    h: &Heights,
    from: usize,
    to: usize,
) -> Result<(), AllocError> {
    let (x1, y1) = (entry(&a.rights, from), entry(&h.bars, from));
    let (x2, y2) = (entry(&a.lefts, to), entry(&h.bars, to));
    match y1.cmp(&y2) {
        Ordering::Less => straight(out, x1, y1.saturating_add(h.bar), x2, y2),
        Ordering::Greater => straight(out, x1, y1, x2, y2.saturating_add(h.bar)),
        Ordering::Equal if x1 < x2 => arc(out, x1, x2, y1.saturating_add(h.bar / 2), h.bar),
        Ordering::Equal => Ok(()),
    }
}

// The arrows to a task, from its predecessors. They have a name, by which they are drawn again over the bars under the pointer.
fn group(
    out: &mut Vec<u8>,
    a: &Places,
    h: &Heights,
    p: &Plan,
    to: usize,
) -> Result<(), AllocError> {
    let before = entry(&p.predecessors, to);
    if before != 0 {
        put::words(out, b"<g id=\"to", to as u64, b"\">\n")?;
        for from in 0..p.tasks {
            if task_set::contains(before, from) {
                arrow(out, a, h, from, to)?;
            }
        }
        svg::end_group(out)?;
    }
    Ok(())
}

// How many arrows there are.
pub fn count(predecessors: &[u64; MOST_TASKS], n: usize) -> u64 {
    predecessors
        .iter()
        .take(n)
        .map(|&s| u64::from(task_set::member_count(s)))
        .fold(0, |found, more| found.saturating_add(more))
}

// Many arrows are thinner.
fn begin_arrows(out: &mut Vec<u8>, count: u64) -> Result<(), AllocError> {
    if 200 < count {
        put::text(out, b"<g class=\"arrows many\">\n")
    } else {
        put::text(out, b"<g class=\"arrows\">\n")
    }
}

// All arrows, to be drawn under the bars.
pub fn draw(out: &mut Vec<u8>, a: &Places, h: &Heights, p: &Plan) -> Result<(), AllocError> {
    begin_arrows(out, count(&p.predecessors, p.tasks))?;
    for t in 0..p.tasks {
        group(out, a, h, p, t)?;
    }
    svg::end_group(out)
}

// The arrows to a task once more, to be seen only under the pointer.
pub fn again(out: &mut Vec<u8>, from: u64, to: usize) -> Result<(), AllocError> {
    if from != 0 {
        put::words(
            out,
            b"<use class=\"again\" href=\"#to",
            to as u64,
            b"\"/>\n",
        )?;
    }
    Ok(())
}
