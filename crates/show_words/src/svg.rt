// The elements of a picture. Places and sizes are tenths of a pixel; how an element of a class looks stands in show_picture.
use crate::put;
use std::alloc::AllocError;

pub fn attribute(out: &mut Vec<u8>, name: &[u8], n: u64) -> Result<(), AllocError> {
    put::text(out, b" ")?;
    put::text(out, name)?;
    put::text(out, b"=\"")?;
    put::number(out, n)?;
    put::text(out, b"\"")
}

// The beginning of an element, with all that it has.
fn open(
    out: &mut Vec<u8>,
    name: &[u8],
    class: &[u8],
    attributes: &[(&[u8], u64)],
) -> Result<(), AllocError> {
    put::text(out, b"<")?;
    put::text(out, name)?;
    put::text(out, b" class=\"")?;
    put::text(out, class)?;
    put::text(out, b"\"")?;
    for &(name, n) in attributes {
        attribute(out, name, n)?;
    }
    Ok(())
}

fn close(out: &mut Vec<u8>) -> Result<(), AllocError> {
    put::text(out, b"/>\n")
}

// Here and below each element has its own attributes; what they have in common is in `open`.
pub fn rect(
    out: &mut Vec<u8>,
    class: &[u8],
    x: u64,
    y: u64,
    width: u64,
    height: u64,
) -> Result<(), AllocError> {
    open(
        out,
        b"rect",
        class,
        &[(b"x", x), (b"y", y), (b"width", width), (b"height", height)],
    )?;
    close(out)
}

pub fn line(
    out: &mut Vec<u8>,
    class: &[u8],
    x1: u64,
    y1: u64,
    x2: u64,
    y2: u64,
) -> Result<(), AllocError> {
    open(
        out,
        b"line",
        class,
        &[(b"x1", x1), (b"y1", y1), (b"x2", x2), (b"y2", y2)],
    )?;
    close(out)
}

// A text begins at a place and ends; what it says is put between.
pub fn begin_words(out: &mut Vec<u8>, class: &[u8], x: u64, y: u64) -> Result<(), AllocError> {
    open(out, b"text", class, &[(b"x", x), (b"y", y)])?;
    put::text(out, b">")
}

pub fn end_words(out: &mut Vec<u8>) -> Result<(), AllocError> {
    put::text(out, b"</text>\n")
}

pub fn words(out: &mut Vec<u8>, class: &[u8], x: u64, y: u64, s: &[u8]) -> Result<(), AllocError> {
    begin_words(out, class, x, y)?;
    put::text(out, s)?;
    end_words(out)
}

pub fn number(out: &mut Vec<u8>, class: &[u8], x: u64, y: u64, n: u64) -> Result<(), AllocError> {
    begin_words(out, class, x, y)?;
    put::number(out, n)?;
    end_words(out)
}

// Two numbers of a path, with a letter or a space before them.
pub fn step(out: &mut Vec<u8>, letter: &[u8], x: u64, y: u64) -> Result<(), AllocError> {
    put::text(out, letter)?;
    put::number(out, x)?;
    put::text(out, b" ")?;
    put::number(out, y)
}

pub fn begin_path(out: &mut Vec<u8>) -> Result<(), AllocError> {
    put::text(out, b"<path d=\"")
}

pub fn end_path(out: &mut Vec<u8>) -> Result<(), AllocError> {
    put::text(out, b"\"/>\n")
}

// A mark that begins at a place and goes on as a path from there.
fn mark(out: &mut Vec<u8>, class: &[u8], x: u64, y: u64, path: &[u8]) -> Result<(), AllocError> {
    put::text(out, b"<path class=\"")?;
    put::text(out, class)?;
    step(out, b"\" d=\"M", x, y)?;
    put::text(out, path)?;
    end_path(out)
}

// The mark of a deadline: a small triangle that points down to a place.
pub fn flag(out: &mut Vec<u8>, class: &[u8], x: u64, y: u64) -> Result<(), AllocError> {
    mark(out, class, x, y, b"l-40 -75h80z")
}

// The mark of a deadline beyond the axis: a small triangle that points to the right, to a place.
pub fn pointer(out: &mut Vec<u8>, class: &[u8], x: u64, y: u64) -> Result<(), AllocError> {
    mark(out, class, x, y, b"l-75 -40v80z")
}

// The mark of a not-before instant: a bracket that hangs below a place and is open to the right.
pub fn bracket(out: &mut Vec<u8>, class: &[u8], x: u64, y: u64) -> Result<(), AllocError> {
    mark(out, class, x.saturating_add(40), y, b"h-40v70h40")
}

pub fn end_group(out: &mut Vec<u8>) -> Result<(), AllocError> {
    put::text(out, b"</g>\n")
}
