// The bars of the tasks, with their numbers, deadlines and not-before instants.
use number_tests::set_of;
use plan::{MOST_TASKS, Plan};
use show_layout::rows;
use show_words::get::entry;
use show_words::places::{Heights, Places, by_digits, middle};
use show_words::{arrows, names, put, svg};
use std::alloc::AllocError;

// The tasks with a narrow bar, with a deadline, with one that they miss, and with one beyond the axis; and those with a not-before
// instant above 0.
#[derive(Clone, Copy)]
pub struct Sets {
    pub narrow: u64,
    pub due: u64,
    pub late: u64,
    pub beyond: u64,
    pub released: u64,
}

// Where the bar of a task lies, its number if it is narrow, its deadline and the number of that; and where the row of not-before
// instants begins below it, its own one and the number of that.
#[derive(Clone, Copy)]
pub struct Bar {
    pub task: usize,
    pub left: u64,
    pub right: u64,
    pub y: u64,
    pub height: u64,
    pub number: u64,
    pub due: u64,
    pub flag: u64,
    pub foot: u64,
    pub release: u64,
    pub tag: u64,
}

fn say_waits(out: &mut Vec<u8>, predecessors: u64) -> Result<(), AllocError> {
    if predecessors != 0 {
        put::text(out, b"; waits for ")?;
        names::numbers(out, predecessors)?;
    }
    Ok(())
}

fn say_release(out: &mut Vec<u8>, release: u32) -> Result<(), AllocError> {
    if release != 0 {
        put::words(out, b"; not before ", u64::from(release), b"")?;
    }
    Ok(())
}

fn say_deadline(out: &mut Vec<u8>, deadline: u32, finish: u32) -> Result<(), AllocError> {
    if deadline != 0 {
        put::words(out, b"; deadline ", u64::from(deadline), b"")?;
        if deadline < finish {
            put::words(out, b", late by ", u64::from(finish - deadline), b"")?;
        }
    }
    Ok(())
}

// What is said under the pointer of a task that runs on a lane from an instant to another one.
pub fn say(
    out: &mut Vec<u8>,
    p: &Plan,
    t: usize,
    lane: usize,
    start: u32,
    finish: u32,
) -> Result<(), AllocError> {
    put::words(out, b"<title>task ", t as u64, b", ")?;
    rows::name(out, p, lane)?;
    put::words(out, b", ", u64::from(start), b" to ")?;
    put::number(out, u64::from(finish))?;
    say_waits(out, entry(&p.predecessors, t))?;
    say_release(out, entry(&p.releases, t))?;
    say_deadline(out, entry(&p.deadlines, t), finish)?;
    put::text(out, b"</title>\n")
}

pub fn begin_group(out: &mut Vec<u8>) -> Result<(), AllocError> {
    put::text(out, b"<g class=\"task\">")
}

pub fn bar_of(a: &Places, h: &Heights, t: usize) -> Bar {
    Bar {
        task: t,
        left: entry(&a.lefts, t),
        right: entry(&a.rights, t),
        y: entry(&h.bars, t),
        height: h.bar,
        number: entry(&a.numbers, t),
        due: entry(&a.dues, t),
        flag: entry(&a.flags, t),
        foot: entry(&h.feet, t),
        release: entry(&a.releases, t),
        tag: entry(&a.tags, t),
    }
}

// Whether a width has room for the number of a task in small digits, and in large ones.
fn fits_small(width: u64, t: usize) -> bool {
    by_digits(t, 75, 130) <= width
}

fn fits_large(width: u64, t: usize) -> bool {
    by_digits(t, 110, 185) <= width
}

// The tasks whose bars are too narrow for their numbers.
pub fn narrow(lefts: &[u64; MOST_TASKS], rights: &[u64; MOST_TASKS], n: usize) -> u64 {
    set_of(n, |t| {
        !fits_small(entry(rights, t).saturating_sub(entry(lefts, t)), t)
    })
}

fn number_inside(out: &mut Vec<u8>, b: &Bar) -> Result<(), AllocError> {
    let x = middle(b.left, b.right);
    let y = b.y.saturating_add(b.height / 2);
    if fits_large(b.right.saturating_sub(b.left), b.task) {
        svg::number(out, b"inside", x, y.saturating_add(43), b.task as u64)
    } else {
        svg::number(out, b"inside small", x, y.saturating_add(35), b.task as u64)
    }
}

// The number of a bar that has no room for it, below it, with a line to it.
fn number_below(out: &mut Vec<u8>, b: &Bar) -> Result<(), AllocError> {
    let bottom = b.y.saturating_add(b.height);
    svg::line(
        out,
        b"lead",
        middle(b.left, b.right),
        bottom,
        b.number,
        bottom.saturating_add(65),
    )?;
    svg::number(
        out,
        b"below",
        b.number,
        bottom.saturating_add(150),
        b.task as u64,
    )
}

// The part of the bar after the deadline; and a line from the deadline to the finish, to be seen under the pointer.
fn draw_late(out: &mut Vec<u8>, b: &Bar) -> Result<(), AllocError> {
    let from = b.left.max(b.due);
    let y = b.y.saturating_sub(40);
    svg::rect(
        out,
        b"late",
        from,
        b.y,
        b.right.saturating_sub(from).max(1),
        b.height,
    )?;
    svg::line(out, b"over", b.due, y, b.right, y)
}

// The mark of the deadline.
fn draw_flag(out: &mut Vec<u8>, b: &Bar, s: &Sets) -> Result<(), AllocError> {
    let y = b.y.saturating_sub(10);
    if task_set::contains(s.late, b.task) {
        svg::flag(out, b"flag", b.due, y)
    } else if task_set::contains(s.beyond, b.task) {
        svg::pointer(out, b"flag met", b.due, y.saturating_sub(38))
    } else {
        svg::flag(out, b"flag met", b.due, y)
    }
}

// The mark of the deadline, and the task's number above it.
fn draw_deadline(out: &mut Vec<u8>, b: &Bar, s: &Sets) -> Result<(), AllocError> {
    draw_flag(out, b, s)?;
    svg::line(
        out,
        b"lead",
        b.flag,
        b.y.saturating_sub(140),
        b.due,
        b.y.saturating_sub(85),
    )?;
    svg::number(
        out,
        b"flagged",
        b.flag,
        b.y.saturating_sub(150),
        b.task as u64,
    )
}

// The mark of the not-before instant below the bar, and the task's number below it.
fn draw_release(out: &mut Vec<u8>, b: &Bar) -> Result<(), AllocError> {
    svg::bracket(out, b"release", b.release, b.foot.saturating_add(50))?;
    svg::line(
        out,
        b"lead",
        b.release,
        b.foot.saturating_add(125),
        b.tag,
        b.foot.saturating_add(165),
    )?;
    svg::number(
        out,
        b"released",
        b.tag,
        b.foot.saturating_add(245),
        b.task as u64,
    )
}

// What is always seen of a task.
fn draw(out: &mut Vec<u8>, b: &Bar, s: &Sets) -> Result<(), AllocError> {
    let task = b.task;
    svg::rect(
        out,
        b"bar",
        b.left,
        b.y,
        b.right.saturating_sub(b.left).max(1),
        b.height,
    )?;
    if task_set::contains(s.late, task) {
        draw_late(out, b)?;
    }
    if task_set::contains(s.due, task) {
        draw_deadline(out, b, s)?;
    }
    if task_set::contains(s.released, task) {
        draw_release(out, b)?;
    }
    if task_set::contains(s.narrow, task) {
        number_below(out, b)
    } else {
        number_inside(out, b)
    }
}

// A stroke across the lane of a task, from an upper end to a lower one.
#[derive(Clone, Copy)]
pub struct Stroke {
    pub x: u64,
    pub top: u64,
    pub bottom: u64,
}

// The strokes of some of the first n tasks, to be drawn under the bars.
pub fn strokes<F: Fn(usize) -> Stroke>(
    out: &mut Vec<u8>,
    class: &[u8],
    tasks: u64,
    n: usize,
    stroke: F,
) -> Result<(), AllocError>
    requires { F.IsAlwaysCallable stroke }
{
    for t in 0..n {
        if task_set::contains(tasks, t) {
            let s = stroke(t);
            svg::line(out, class, s.x, s.top, s.x, s.bottom)?;
        }
    }
    Ok(())
}

// The rest of a task's group: the arrows to it, which are seen under the pointer, and the task.
pub fn draw_group(
    out: &mut Vec<u8>,
    b: &Bar,
    s: &Sets,
    predecessors: u64,
) -> Result<(), AllocError> {
    arrows::again(out, predecessors, b.task)?;
    draw(out, b, s)?;
    svg::end_group(out)
}
