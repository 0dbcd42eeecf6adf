// Words and numbers, put behind what is to be shown.
use itoa::Buffer;
use std::alloc::AllocError;

pub fn text(out: &mut Vec<u8>, s: &[u8]) -> Result<(), AllocError> {
    out.extend_from_slice(s)
}

pub fn number(out: &mut Vec<u8>, n: u64) -> Result<(), AllocError> {
    let mut buffer = Buffer::new();
    text(out, buffer.format(n).as_bytes())
}

// A number between words.
pub fn words(out: &mut Vec<u8>, before: &[u8], n: u64, after: &[u8]) -> Result<(), AllocError> {
    text(out, before)?;
    number(out, n)?;
    text(out, after)
}

pub fn end_line(out: &mut Vec<u8>) -> Result<(), AllocError> {
    text(out, b"\n")
}

// How many digits a number has.
pub fn digits(n: u64) -> usize {
    let mut buffer = Buffer::new();
    buffer.format(n).len()
}

fn spaces(out: &mut Vec<u8>, n: usize) -> Result<(), AllocError> {
    for _ in 0..n {
        text(out, b" ")?;
    }
    Ok(())
}

// A number at the right of so many columns.
pub fn right(out: &mut Vec<u8>, n: u64, width: usize) -> Result<(), AllocError> {
    spaces(out, width.saturating_sub(digits(n)))?;
    number(out, n)
}

// The head of a column, two spaces after the column before. A column is as wide as its head, or as so many digits.
pub fn head(out: &mut Vec<u8>, s: &[u8], digits: usize) -> Result<(), AllocError> {
    text(out, b"  ")?;
    spaces(out, digits.saturating_sub(s.len()))?;
    text(out, s)
}

// The heads of a table of tasks, each with the digits of its column.
pub fn heads(out: &mut Vec<u8>, columns: &[(&[u8], usize)]) -> Result<(), AllocError> {
    text(out, b"task")?;
    for &(s, digits) in columns {
        head(out, s, digits)?;
    }
    Ok(())
}

// A number in the column with this head.
pub fn under(out: &mut Vec<u8>, head: &[u8], digits: usize, n: u64) -> Result<(), AllocError> {
    text(out, b"  ")?;
    right(out, n, digits.max(head.len()))
}
