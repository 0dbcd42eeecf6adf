// Refusals 3 to 7: what is wrong with a line that has one of the six forms.
use crate::checks;
use plan::{LATEST_DEADLINE, LATEST_RELEASE, LONGEST_TIME, MOST_TASKS, MOST_TYPES, MOST_UNITS};
use plan_text::Line;
use show_lines::lines;
use show_words::{names, put};
use std::alloc::AllocError;

// Nothing where the number is in its range; a word of advice where it is above.
fn range(
    out: &mut Vec<u8>,
    name: &[u8],
    n: u32,
    least: u32,
    most: u32,
    above: &[u8],
) -> Result<(), AllocError> {
    if (n < least) | (most < n) {
        put::text(out, b"  ")?;
        put::text(out, name)?;
        put::words(out, b" ", u64::from(n), b" is not one of ")?;
        put::words(out, b"", u64::from(least), b" to ")?;
        put::number(out, u64::from(most))?;
        if most < n {
            put::text(out, above)?;
        }
        put::end_line(out)?;
    }
    Ok(())
}

// One call of `range` for each kind of number, with its own word.
fn task_range(out: &mut Vec<u8>, t: u32) -> Result<(), AllocError> {
    range(
        out,
        b"task",
        t,
        0,
        MOST_TASKS as u32 - 1,
        b": tasks are numbered from 0",
    )
}

fn type_range(out: &mut Vec<u8>, k: u32) -> Result<(), AllocError> {
    range(
        out,
        b"type",
        k,
        0,
        MOST_TYPES as u32 - 1,
        b": types are numbered from 0",
    )
}

fn time_range(out: &mut Vec<u8>, name: &[u8], x: u32) -> Result<(), AllocError> {
    range(out, name, x, 1, LONGEST_TIME, b": take a longer tick")
}

fn times_range(out: &mut Vec<u8>, t: u32, k: u32, best: u32, worst: u32) -> Result<(), AllocError> {
    task_range(out, t)?;
    type_range(out, k)?;
    time_range(out, b"best time", best)?;
    time_range(out, b"worst time", worst)
}

fn arrow_range(out: &mut Vec<u8>, from: u32, to: u32) -> Result<(), AllocError> {
    task_range(out, from)?;
    if to != from {
        task_range(out, to)?;
    }
    Ok(())
}

// The numbers of a line that names an instant of a task.
fn instant_range(
    out: &mut Vec<u8>,
    t: u32,
    name: &[u8],
    x: u32,
    least: u32,
    most: u32,
) -> Result<(), AllocError> {
    task_range(out, t)?;
    range(out, name, x, least, most, b": take a longer tick")
}

fn deadline_range(out: &mut Vec<u8>, t: u32, d: u32) -> Result<(), AllocError> {
    instant_range(out, t, b"deadline", d, 1, LATEST_DEADLINE)?;
    if d == 0 {
        put::text(out, b"  a task without deadline has no D line\n")?;
    }
    Ok(())
}

fn ranges(out: &mut Vec<u8>, line: Line) -> Result<(), AllocError> {
    put::text(out, b"a number is out of its range\n")?;
    match line {
        Line::Units(k, n) => {
            type_range(out, k)?;
            range(out, b"count", n, 1, MOST_UNITS, b"")
        }
        Line::Times(t, k, b, w) => times_range(out, t, k, b, w),
        Line::Arrow(from, to) => arrow_range(out, from, to),
        Line::Deadline(t, d) => deadline_range(out, t, d),
        Line::Release(t, i) => instant_range(out, t, b"not-before instant", i, 0, LATEST_RELEASE),
        Line::Choice(t, k) => {
            task_range(out, t)?;
            type_range(out, k)
        }
    }
}

fn odds(out: &mut Vec<u8>, line: Line) -> Result<(), AllocError> {
    match line {
        Line::Times(_, _, b, w) => {
            put::words(
                out,
                b"the worst time, ",
                u64::from(w),
                b", is below the best time",
            )?;
            put::words(out, b", ", u64::from(b), b"; are they exchanged?\n")
        }
        Line::Arrow(from, _) => put::words(
            out,
            b"the arrow leads from task ",
            u64::from(from),
            b" to itself; take it out\n",
        ),
        _ => Ok(()),
    }
}

fn put_order(out: &mut Vec<u8>) -> Result<(), AllocError> {
    put::text(out, b": the order is U, T, A, D, N, C\n")
}

// The letters of the lines, in the order in which they stand in a text.
const KINDS: [u8; 6] = *b"UTADNC";

// The kind and the place of the first line of a later kind above this one. All lines above it are in order.
fn first_later(text: &[u8], letter: u8, place: usize) -> Option<(u8, usize)> {
    for &kind in KINDS.iter().skip_while(|&&kind| kind != letter).skip(1) {
        match lines::find(text, kind, &[]) {
            Some(found) if found < place => return Some((kind, found)),
            _ => {}
        }
    }
    None
}

// A U line behind a C line may be the first of a second plan.
fn late(out: &mut Vec<u8>, text: &[u8], place: usize, line: Line) -> Result<(), AllocError> {
    let (letter, _) = lines::front(line);
    let Some((kind, later)) = first_later(text, letter, place) else {
        return Ok(());
    };
    let has_choice = lines::find(text, b'C', &[]).is_some_and(|choice| choice < place);
    put::text(out, &[letter])?;
    put::text(out, b" stands behind ")?;
    put::text(out, &[kind])?;
    if (letter == b'U') & has_choice {
        put::text(
            out,
            b": does a second plan begin here? A text has one plan. If not, move",
        )?;
    } else {
        put::text(out, b"; move")?;
    }
    put::words(out, b" the line up, above line ", later as u64, b"")?;
    put_order(out)?;
    lines::quote(out, text, later)
}

// A task or a type that has no line of its own above this place, of this letter.
fn absent(
    out: &mut Vec<u8>,
    text: &[u8],
    place: usize,
    name: &[u8],
    letter: u8,
    n: u32,
) -> Result<(), AllocError> {
    let found = lines::find(text, letter, &[u64::from(n)]);
    if found.is_some_and(|found| found < place) {
        return Ok(());
    }
    put::text(out, b"  ")?;
    put::text(out, name)?;
    put::words(out, b" ", u64::from(n), b" has no ")?;
    put::text(out, &[letter])?;
    match found {
        Some(found) => {
            put::words(out, b" line above; it is below, line ", found as u64, b"")?;
            put_order(out)
        }
        None if lines::find(text, letter, &[]).is_some() => put::text(out, b" line\n"),
        None => put::text(out, b" line; the text has none at all\n"),
    }
}

// A line that names one task, or the first of the two that an arrow names.
fn unknown_task(out: &mut Vec<u8>, text: &[u8], place: usize, t: u32) -> Result<(), AllocError> {
    put::text(out, b"the line names a task that has no T line above\n")?;
    absent(out, text, place, b"task", b'T', t)
}

fn unknown_tasks(
    out: &mut Vec<u8>,
    text: &[u8],
    place: usize,
    from: u32,
    to: u32,
) -> Result<(), AllocError> {
    unknown_task(out, text, place, from)?;
    absent(out, text, place, b"task", b'T', to)
}

// Of a U line all lines before are U lines, so that this one should be of the type after theirs; or it is there already.
fn next_type(out: &mut Vec<u8>, text: &[u8], place: usize, k: u32) -> Result<(), AllocError> {
    match lines::find(text, b'U', &[u64::from(k)]) {
        Some(earlier) if earlier < place => {
            put::words(
                out,
                b"type ",
                u64::from(k),
                b" already has its U line: see line ",
            )?;
            put::words(out, b"", earlier as u64, b"\n")?;
            lines::quote(out, text, earlier)
        }
        _ => put::words(
            out,
            b"the U line of type ",
            place.saturating_sub(1) as u64,
            b" is missing above, or this type is wrong: U lines give the types in order, from 0\n",
        ),
    }
}

fn unknown(out: &mut Vec<u8>, text: &[u8], place: usize, line: Line) -> Result<(), AllocError> {
    match line {
        Line::Units(k, _) => next_type(out, text, place, k),
        Line::Times(_, k, _, _) => {
            put::text(out, b"the line names a type that has no U line above\n")?;
            absent(out, text, place, b"type", b'U', k)
        }
        Line::Arrow(from, to) => unknown_tasks(out, text, place, from, to),
        Line::Deadline(t, _) => unknown_task(out, text, place, t),
        Line::Release(t, _) => unknown_task(out, text, place, t),
        Line::Choice(t, _) => unknown_task(out, text, place, t),
    }
}

// The first line that says the same, of the numbers that may not come twice.
fn earlier(text: &[u8], line: Line) -> Option<usize> {
    let (letter, [first, second]) = lines::front(line);
    match line {
        Line::Times(_, _, _, _) | Line::Arrow(_, _) => lines::find(text, letter, &[first, second]),
        _ => lines::find(text, letter, &[first]),
    }
}

fn put_already(out: &mut Vec<u8>, t: u32, what: &[u8]) -> Result<(), AllocError> {
    put::words(out, b"task ", u64::from(t), b" already ")?;
    put::text(out, what)
}

fn put_twice(out: &mut Vec<u8>, line: Line) -> Result<(), AllocError> {
    match line {
        Line::Times(t, k, _, _) => {
            put_already(out, t, b"has times on type ")?;
            put::number(out, u64::from(k))
        }
        Line::Arrow(_, _) => put::text(out, b"this arrow is already there"),
        Line::Deadline(t, _) => put_already(out, t, b"has a deadline"),
        Line::Release(t, _) => put_already(out, t, b"has an N line"),
        Line::Choice(t, _) => put_already(out, t, b"stands in the order"),
        _ => Ok(()),
    }
}

// A task that stands in the order twice is often mistyped for one that does not stand in it.
fn put_unlisted(out: &mut Vec<u8>, text: &[u8], line: Line) -> Result<(), AllocError> {
    if let Line::Choice(_, _) = line {
        let set = checks::unlisted(text);
        if set != 0 {
            put::text(out, b"  no C line yet: ")?;
            names::tasks(out, set)?;
            put::end_line(out)?;
        }
    }
    Ok(())
}

fn repeated(out: &mut Vec<u8>, text: &[u8], line: Line) -> Result<(), AllocError> {
    let Some(place) = earlier(text, line) else {
        return Ok(());
    };
    put_twice(out, line)?;
    put::words(out, b": see line ", place as u64, b"\n")?;
    put_unlisted(out, text, line)?;
    lines::quote(out, text, place)
}

// A number, since what a text is read into is a C struct that has it.
fn fault(
    out: &mut Vec<u8>,
    text: &[u8],
    number: u32,
    place: usize,
    line: Line,
) -> Result<(), AllocError> {
    match number {
        3 => ranges(out, line),
        4 => odds(out, line),
        5 => late(out, text, place, line),
        6 => unknown(out, text, place, line),
        _ => repeated(out, text, line),
    }
}

pub fn show(out: &mut Vec<u8>, text: &[u8], number: u32, place: usize) -> Result<(), AllocError> {
    put::words(out, b"refused ", u64::from(number), b" at line ")?;
    put::words(out, b"", place as u64, b": ")?;
    if let Some(line) = plan_text::read_line(lines::line(text, place)) {
        fault(out, text, number, place, line)?;
    }
    lines::quote(out, text, place)
}
