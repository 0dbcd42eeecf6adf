// The lines of a text: the one at a place, counted from 1, and where a line like this one stands first.
ghost use Rattle.std.specs.Prelude.{◌<◌};

use plan_text::{Line, read_line};
use show_words::put;
use std::alloc::AllocError;

// What is quoted of a line at most, and of a part of a line in a sentence.
const MOST_OF_LINE: usize = 72;

const MOST_OF_PART: usize = 24;

fn is_newline(b: &u8) -> bool {
    *b == b'\n'
}

// The line at a place, without its newline; no bytes where there is none.
pub fn line(text: &[u8], place: usize) -> &[u8] {
    text.split(is_newline)
        .nth(place.saturating_sub(1))
        .unwrap_or(&[])
}

// The letter of a line, and its first two numbers.
pub fn front(line: Line) -> (u8, [u64; 2]) {
    let (letter, a, b) = match line {
        Line::Units(k, n) => (b'U', k, n),
        Line::Times(t, k, _, _) => (b'T', t, k),
        Line::Arrow(from, to) => (b'A', from, to),
        Line::Deadline(t, d) => (b'D', t, d),
        Line::Release(t, i) => (b'N', t, i),
        Line::Choice(t, k) => (b'C', t, k),
    };
    (letter, [u64::from(a), u64::from(b)])
}

// The place of the first line with this letter that begins with these numbers, of which there are two at most.
pub fn find(text: &[u8], letter: u8, numbers: &[u64]) -> Option<usize> {
    let index = text.split(is_newline).position(|s| {
        read_line(s)
            .map(front)
            .is_some_and(|(l, ns)| (l == letter) & ns.starts_with(numbers))
    });
    Some(index?.saturating_add(1))
}

// How many lines are none of the six forms.
pub fn count_unformed(text: &[u8]) -> usize {
    text.split_inclusive(is_newline)
        .filter(|s| read_line(s.strip_suffix(b"\n").unwrap_or(s)).is_none())
        .count()
}

// By hand: `write!` to a `Vec` has another error than what is put beside it.
fn hex_digit(d: u8) -> u8
    requires { d < 16 }
{
    if d < 10 { b'0' + d } else { b'a' - 10 + d }
}

// A byte as it is quoted: a tab as an arrow, what cannot be printed by its hexadecimal number.
fn put_byte(out: &mut Vec<u8>, b: u8) -> Result<(), AllocError> {
    match b {
        b'\t' => put::text(out, b"\xe2\x87\xa5"),
        b' '..=b'~' => put::text(out, &[b]),
        _ => put::text(out, &[b'<', hex_digit(b / 16), hex_digit(b % 16), b'>']),
    }
}

// Bytes as they are quoted, cut where they are many.
fn put_quoted(out: &mut Vec<u8>, s: &[u8], most: usize) -> Result<(), AllocError> {
    for &b in s.iter().take(most) {
        put_byte(out, b)?;
    }
    if most < s.len() {
        put::text(out, b" ..")?;
    }
    Ok(())
}

// A part of a line, in quotation marks.
pub fn put_part(out: &mut Vec<u8>, s: &[u8]) -> Result<(), AllocError> {
    put::text(out, b"\"")?;
    put_quoted(out, s, MOST_OF_PART)?;
    put::text(out, b"\"")
}

// The line at a place, quoted, with a word about it.
pub fn quote_with(
    out: &mut Vec<u8>,
    text: &[u8],
    place: usize,
    word: &[u8],
) -> Result<(), AllocError> {
    put::words(out, b"  line ", place as u64, b": ")?;
    put_quoted(out, line(text, place), MOST_OF_LINE)?;
    put::text(out, word)?;
    put::end_line(out)
}

pub fn quote(out: &mut Vec<u8>, text: &[u8], place: usize) -> Result<(), AllocError> {
    quote_with(out, text, place, b"")
}

// The first line with this letter and these numbers, quoted; nothing where there is none.
pub fn quote_first(
    out: &mut Vec<u8>,
    text: &[u8],
    letter: u8,
    numbers: &[u64],
) -> Result<(), AllocError> {
    match find(text, letter, numbers) {
        Some(place) => quote(out, text, place),
        None => Ok(()),
    }
}
