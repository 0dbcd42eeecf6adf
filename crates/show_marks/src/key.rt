// What the marks mean, below the picture, as far as it has them.
use crate::bars::Sets;
use show_layout::scale;
use show_words::{put, svg};
use std::alloc::AllocError;

fn deadline_key(out: &mut Vec<u8>, s: &Sets, x: u64, y: u64) -> Result<(), AllocError> {
    svg::flag(out, b"flag met", x, y.saturating_sub(5))?;
    svg::words(
        out,
        b"key",
        x.saturating_add(120),
        y,
        b"deadline of that task",
    )?;
    if s.late != 0 {
        svg::flag(out, b"flag", x.saturating_add(1500), y.saturating_sub(5))?;
        svg::words(out, b"key", x.saturating_add(1620), y, b"missed")?;
        svg::rect(
            out,
            b"late",
            x.saturating_add(2400),
            y.saturating_sub(105),
            300,
            140,
        )?;
        svg::words(
            out,
            b"key",
            x.saturating_add(2780),
            y,
            b"after the deadline",
        )?;
    }
    if s.beyond != 0 {
        svg::pointer(
            out,
            b"flag met",
            x.saturating_add(4475),
            y.saturating_sub(40),
        )?;
        svg::words(
            out,
            b"key",
            x.saturating_add(4540),
            y,
            b"deadline beyond the axis",
        )?;
    }
    Ok(())
}

// How far the second line of the key, which only not-before instants have, lies below the first.
const SECOND_LINE: u64 = 200;

// How high the key is.
pub fn height(s: &Sets) -> u64 {
    if s.released == 0 {
        550
    } else {
        550 + SECOND_LINE
    }
}

fn release_key(out: &mut Vec<u8>, x: u64, y: u64) -> Result<(), AllocError> {
    svg::bracket(out, b"release", x, y.saturating_sub(75))?;
    svg::words(
        out,
        b"key",
        x.saturating_add(120),
        y,
        b"not-before instant of that task",
    )
}

// How far the arrow with its words moves the rest to the right.
fn arrow_room(arrows: u64) -> u64 {
    if arrows == 0 { 0 } else { 2500 }
}

fn arrow_key(out: &mut Vec<u8>, x: u64, y: u64) -> Result<(), AllocError> {
    put::text(out, b"<g class=\"arrows\">\n")?;
    svg::begin_path(out)?;
    svg::step(out, b"M", x, y.saturating_sub(40))?;
    svg::step(out, b"L", x.saturating_add(400), y.saturating_sub(40))?;
    svg::end_path(out)?;
    svg::end_group(out)?;
    svg::words(
        out,
        b"key",
        x.saturating_add(470),
        y,
        b"to a task that waits for it",
    )
}

pub fn draw(out: &mut Vec<u8>, s: &Sets, arrows: u64, bottom: u64) -> Result<(), AllocError> {
    let y = bottom.saturating_add(430);
    svg::rect(out, b"bar", scale::LEFT, y.saturating_sub(105), 300, 140)?;
    svg::words(out, b"key", scale::LEFT + 380, y, b"task")?;
    let x = scale::LEFT + 1000;
    if arrows != 0 {
        arrow_key(out, x, y)?;
    }
    if s.due != 0 {
        deadline_key(out, s, x.saturating_add(arrow_room(arrows)), y)?;
    }
    if s.released != 0 {
        release_key(out, scale::LEFT, y.saturating_add(SECOND_LINE))?;
    }
    Ok(())
}
