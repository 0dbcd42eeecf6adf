// Refusal 2: what keeps a line from being one of the six forms.
use crate::lines;
use plan_text::MOST_DIGITS;
use show_words::put;
use std::alloc::AllocError;

// More fields than this no line has that is worth a closer look.
const MOST_FIELDS: usize = 8;

// What is wrong with a line.
#[derive(Clone, Copy)]
enum Cause<'a> {
    // What these words say.
    Words(&'static [u8]),
    // A byte order mark before a line, which also has a carriage return or has none.
    Mark { has_return: bool },
    // A character that is not ASCII, at the front of these bytes.
    Beyond(&'a [u8]),
    // A field of this number, counted from 1, that is no number.
    Field(usize, &'a [u8]),
    // So many fields, where the letter wants another count.
    Count(usize),
}

// UTF-16 begins with its mark; without one every second byte of a line is zero.
pub fn is_utf16(s: &[u8]) -> bool {
    match s {
        [255, 254, ..] | [254, 255, ..] => true,
        [a, b, c, d, ..] => ((*a == 0) & (*b != 0) & (*c == 0))
            | ((*a != 0) & (*b == 0) & (*d == 0)),
        _ => false,
    }
}

const UTF16: &[u8] =
    b"the text is saved as UTF-16, with two bytes for each character; save it as UTF-8 without byte order mark";

pub fn put_utf16(out: &mut Vec<u8>) -> Result<(), AllocError> {
    put::text(out, UTF16)
}

// The bytes from the first on that is not ASCII.
fn beyond(s: &[u8]) -> Option<&[u8]> {
    s.get(s.iter().position(|b| !b.is_ascii())?..)
}

// What is wrong with how the text was saved.
fn saved(s: &[u8], place: usize) -> Option<Cause<'_>> {
    let has_return = s.contains(&b'\r');
    if is_utf16(s) {
        Some(Cause::Words(UTF16))
    } else if (place == 1) & s.starts_with(b"\xef\xbb\xbf") {
        Some(Cause::Mark { has_return })
    } else if has_return {
        Some(Cause::Words(
            b"the line has a carriage return (byte 0d), as Windows (CR LF) and old Macs (CR) end lines; save the text with Unix line ends (LF)",
        ))
    } else if s.contains(&0) {
        Some(Cause::Words(b"the line has a zero byte; take it out"))
    } else {
        Some(Cause::Beyond(beyond(s)?))
    }
}

fn begins_comment(b: u8) -> bool {
    matches!(b, b'#' | b'/' | b';' | b'%' | b'!')
}

// A stroke right behind the first one.
fn has_slashes(s: &[u8]) -> bool {
    s.iter().skip_while(|&&b| b != b'/').nth(1) == Some(&b'/')
}

// What is wrong with a line of which this is the first byte that is neither space nor tab, as a whole.
fn whole_line(s: &[u8], visible: u8) -> Option<&'static [u8]> {
    if begins_comment(visible) {
        Some(b"the line is a comment; take it out: a plan text has no comments")
    } else if s.contains(&b'#') | has_slashes(s) {
        Some(
            b"the line has a comment; take it out, with the tab or spaces before it: a plan text has no comments",
        )
    } else if s.contains(&b'"') {
        Some(b"the line has quotation marks; take them out")
    } else if s.starts_with(b"\t") {
        Some(b"the line begins with a tab; take it out")
    } else if s.starts_with(b" ") {
        Some(b"the line begins with a space; take it out")
    } else if s.ends_with(b" ") {
        Some(b"the line ends in a space; take it out")
    } else if s.contains(&b' ') {
        Some(
            b"the line has spaces; one tab (quoted here as \xe2\x87\xa5) stands before each number, and nothing else does",
        )
    } else {
        None
    }
}

fn whole(s: &[u8]) -> Option<&'static [u8]> {
    match s.iter().find(|&&b| (b != b' ') & (b != b'\t')) {
        Some(&visible) => whole_line(s, visible),
        None => Some(b"the line is blank; take it out: a plan text has no blank lines"),
    }
}

fn is_letter(b: u8) -> bool {
    matches!(b, b'U' | b'T' | b'A' | b'D' | b'N' | b'C')
}

fn is_small_letter(b: u8) -> bool {
    b.is_ascii_lowercase() && is_letter(b.to_ascii_uppercase())
}

fn is_in_word(b: u8) -> bool {
    matches!(b, b'A'..=b'z')
}

// What is wrong with the letter and the tab behind it.
fn front(s: &[u8]) -> Option<&'static [u8]> {
    match s {
        [letter, b'\t', ..] if is_small_letter(*letter) => {
            Some(b"the letter is a small one; write U, T, A, D, N or C")
        }
        [_, b',' | b';', ..] => Some(
            b"commas or semicolons stand for tabs; one tab stands before each number: save the text with tabs",
        ),
        [letter, second, ..] if is_in_word(*letter) & is_in_word(*second) => Some(
            b"a line begins with one letter, U, T, A, D, N or C, and a tab; there are no headings",
        ),
        [letter, b'\t', ..] if is_letter(*letter) => None,
        _ => Some(b"a line begins with one of the letters U, T, A, D, N and C, and a tab"),
    }
}

// The first byte of a field that is no digit.
fn first_other(field: &[u8]) -> Option<u8> {
    field.iter().copied().find(|b| !b.is_ascii_digit())
}

fn is_good(field: &[u8]) -> bool {
    let zero = (1 < field.len()) & field.starts_with(b"0");
    (0 < field.len()) & (field.len() <= MOST_DIGITS) & first_other(field).is_none() & !zero
}

fn is_tab(b: &u8) -> bool {
    *b == b'\t'
}

fn wanted(letter: u8) -> usize {
    if letter == b'T' { 4 } else { 2 }
}

// What is wrong with the fields: there is one behind each tab.
fn fields(s: &[u8]) -> Cause<'_> {
    let mut numbered = s.split(is_tab).enumerate().skip(1).take(MOST_FIELDS);
    if let Some((k, field)) = numbered.find(|(_, field)| !is_good(field)) {
        return Cause::Field(k, field);
    }
    let count = s.iter().filter(|b| is_tab(b)).count();
    if s.first().is_some_and(|&letter| count != wanted(letter)) {
        return Cause::Count(count);
    }
    Cause::Words(b"the last line does not end in a newline; press Enter at its end")
}

// The first cause that applies.
fn cause_of(s: &[u8], place: usize) -> Cause<'_> {
    if let Some(cause) = saved(s, place) {
        return cause;
    }
    if let Some(words) = whole(s) {
        return Cause::Words(words);
    }
    if let Some(words) = front(s) {
        return Cause::Words(words);
    }
    fields(s)
}

fn put_mark(out: &mut Vec<u8>, has_return: bool) -> Result<(), AllocError> {
    put::text(
        out,
        b"the text begins with a byte order mark (bytes ef bb bf, which editors do not show); save it as UTF-8 without that mark",
    )?;
    if has_return {
        put::text(
            out,
            b", and with Unix line ends: the line has a carriage return, too",
        )?;
    }
    Ok(())
}

// How many bytes a character of UTF-8 has that begins so.
fn width(b: u8) -> usize {
    match b {
        0..=191 => 1,
        192..=223 => 2,
        224..=239 => 3,
        _ => 4,
    }
}

// The character at the front: its first byte, and those that go on with it.
fn sign(s: &[u8]) -> Option<&[u8]> {
    let most = width(*s.first()?);
    let end = s.iter().skip(1).position(|b| !matches!(b, 128..=191));
    s.get(..most.min(end.map_or(s.len(), |n| n.saturating_add(1))))
}

// A character that is not ASCII; the sign that stands for a tab in the guide is told apart.
fn put_beyond(out: &mut Vec<u8>, s: &[u8]) -> Result<(), AllocError> {
    if s.starts_with(b"\xe2\x87\xa5") {
        put::text(
            out,
            b"the sign \xe2\x87\xa5 stands for a tab in the guide; type a tab",
        )
    } else {
        put::text(out, b"the line has a character that is not plain ASCII, ")?;
        lines::put_part(out, sign(s).unwrap_or(&[]))?;
        put::text(
            out,
            b", which may look like a space, like another one, or not at all; type it anew, or take it out",
        )
    }
}

fn put_field_fault(out: &mut Vec<u8>, field: &[u8]) -> Result<(), AllocError> {
    match first_other(field) {
        Some(b'.' | b',') => put::text(
            out,
            b"has a point or comma; numbers are whole and have no separators: for a fraction take a shorter tick, or round (a worst time up)",
        ),
        Some(b'-' | b'+') if 1 < field.len() => put::text(out, b"has a sign; numbers have none"),
        Some(b) if is_letter(b) & (field.len() == 1) => {
            put::text(out, b"is no number; is a newline missing before it?")
        }
        Some(_) => put::text(out, b"has other characters than digits"),
        None if MOST_DIGITS < field.len() => {
            put::words(
                out,
                b"has more than ",
                MOST_DIGITS as u64,
                b" digits; no number is above ",
            )?;
            put::number(out, u64::from(plan::LONGEST_TIME))
        }
        None => put::text(out, b"begins with 0; leave that out"),
    }
}

fn put_field(out: &mut Vec<u8>, s: &[u8], k: usize, field: &[u8]) -> Result<(), AllocError> {
    if field.is_empty() & s.ends_with(b"\t") {
        put::text(out, b"the line ends in a tab; take out all tabs at its end")
    } else if field.is_empty() {
        put::words(
            out,
            b"two tabs stand before number ",
            k as u64,
            b"; take one out",
        )
    } else {
        put::words(out, b"number ", k as u64, b" of the line, ")?;
        lines::put_part(out, field)?;
        put::text(out, b", ")?;
        put_field_fault(out, field)
    }
}

fn put_form(out: &mut Vec<u8>, letter: Option<&u8>) -> Result<(), AllocError> {
    match letter {
        Some(b'U') => put::text(out, b"a U line has 2 numbers: type, count"),
        Some(b'T') => put::text(out, b"a T line has 4 numbers: task, type, best, worst"),
        Some(b'A') => put::text(out, b"an A line has 2 numbers: from, to"),
        Some(b'D') => put::text(out, b"a D line has 2 numbers: task, instant"),
        Some(b'N') => put::text(out, b"an N line has 2 numbers: task, instant"),
        _ => put::text(out, b"a C line has 2 numbers: task, type"),
    }
}

fn put_cause(out: &mut Vec<u8>, s: &[u8], place: usize) -> Result<(), AllocError> {
    match cause_of(s, place) {
        Cause::Words(words) => put::text(out, words),
        Cause::Mark { has_return } => put_mark(out, has_return),
        Cause::Beyond(rest) => put_beyond(out, rest),
        Cause::Field(k, field) => put_field(out, s, k, field),
        Cause::Count(count) => {
            put_form(out, s.first())?;
            put::words(out, b"; this one has ", count as u64, b"")
        }
    }
}

pub fn show(out: &mut Vec<u8>, text: &[u8], place: usize) -> Result<(), AllocError> {
    put::words(out, b"refused 2 at line ", place as u64, b": ")?;
    put_cause(out, lines::line(text, place), place)?;
    put::end_line(out)?;
    lines::quote(out, text, place)?;
    let others = lines::count_unformed(text).saturating_sub(1);
    if 0 < others {
        put::words(
            out,
            b"  lines that are none of the forms, besides this one: ",
            others as u64,
            b"\n",
        )?;
    }
    Ok(())
}
