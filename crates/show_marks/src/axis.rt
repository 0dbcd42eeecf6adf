// The axis of time, and the line of the response.
use show_layout::scale;
use show_layout::scale::Size;
use show_words::{put, svg};
use std::alloc::AllocError;
use std::iter::successors;

// An axis has at most so many labels.
const MOST_LABELS: usize = 17;

// A step is widened at most so often: then sixteen of it reach beyond every instant.
const WIDENED: usize = 24;

// The step after the one that has come from 1 in i such steps: 2, 5, 10, 20, and so on.
fn next(step: u64, i: usize) -> u64 {
    if i % 3 == 1 {
        step.saturating_mul(5) / 2
    } else {
        step.saturating_mul(2)
    }
}

// The step, or the next one if sixteen of it do not reach the end.
fn widened(step: u64, i: usize, end: u64) -> u64 {
    if end <= step.saturating_mul(16) {
        step
    } else {
        next(step, i)
    }
}

// The least step of 1, 2 or 5 times a power of ten of which sixteen reach the end.
fn step_for(end: u64) -> u64 {
    (0..WIDENED).fold(1, |step, i| widened(step, i, end))
}

// Draws something at each step from 0 to the end.
fn at_steps<F: Fn(&mut Vec<u8>, u64) -> Result<(), AllocError>>(
    out: &mut Vec<u8>,
    end: u64,
    draw: F,
) -> Result<(), AllocError>
    requires { F.IsAlwaysCallable draw }
{
    let step = step_for(end);
    let steps = successors(Some(0u64), |&t| t.checked_add(step));
    for t in steps.take(MOST_LABELS).take_while(|&t| t <= end) {
        draw(out, t)?;
    }
    Ok(())
}

fn grid(out: &mut Vec<u8>, end: u64, top: u64, bottom: u64) -> Result<(), AllocError> {
    at_steps(out, end, |out, t| {
        let x = scale::x(end, t);
        svg::line(out, b"grid", x, top, x, bottom)
    })
}

fn labels(out: &mut Vec<u8>, end: u64, y: u64) -> Result<(), AllocError> {
    svg::words(out, b"lane", scale::LEFT - 100, y, b"ticks")?;
    at_steps(out, end, |out, t| {
        svg::number(out, b"at", scale::x(end, t), y, t)
    })
}

// The light lines under everything, and the instants below the lanes; where lanes are many, above them, too.
pub fn draw(out: &mut Vec<u8>, end: u64, s: &Size, bottom: u64) -> Result<(), AllocError> {
    grid(out, end, s.top, bottom.saturating_add(50))?;
    labels(out, end, bottom.saturating_add(180))?;
    if s.many {
        labels(out, end, s.top.saturating_sub(70))?;
    }
    Ok(())
}

// The ends of the axis: the line below the lanes, and the line of the instant 0.
pub fn frame(out: &mut Vec<u8>, top: u64, bottom: u64) -> Result<(), AllocError> {
    svg::line(out, b"axis", scale::LEFT, bottom, scale::RIGHT, bottom)?;
    svg::line(out, b"axis", scale::LEFT, top, scale::LEFT, bottom)
}

// Where the line of the response begins: below its label, and below the axis where that stands above the lanes.
fn response_top(s: &Size) -> u64 {
    s.top.saturating_sub(if s.many { 50 } else { 160 })
}

// The line of the response, over all lanes.
pub fn response(
    out: &mut Vec<u8>,
    end: u64,
    response: u64,
    s: &Size,
    bottom: u64,
) -> Result<(), AllocError> {
    let x = scale::x(end, response);
    svg::line(
        out,
        b"response",
        x,
        response_top(s),
        x,
        bottom.saturating_add(50),
    )?;
    svg::begin_words(out, b"last", x, 360)?;
    put::words(out, b"R = ", response, b"")?;
    svg::end_words(out)
}
