// What a line says by itself: numbers out of range (3), and numbers at odds with each other (4).
#![tactic(auto)]

ghost use Rattle.std.specs.Prelude.{◌≡◌};
ghost use Rattle.text_range.specs.Ranges.{at_odds, is_deadline, is_release, is_task, is_time, is_type, out_of_range};

use plan::{LATEST_DEADLINE, LATEST_RELEASE, LONGEST_TIME, MOST_TASKS, MOST_TYPES, MOST_UNITS};
use text_form::Line;

// Each range has its name in the definitions, so each has its function.
fn is_type(k: u32) -> bool
    ensures { result ≡ is_type k }
{
    (k as usize) < MOST_TYPES
}

fn is_task(t: u32) -> bool
    ensures { result ≡ is_task t }
{
    (t as usize) < MOST_TASKS
}

fn is_time(x: u32) -> bool
    ensures { result ≡ is_time x }
{
    (1 <= x) & (x <= LONGEST_TIME)
}

fn is_deadline(x: u32) -> bool
    ensures { result ≡ is_deadline x }
{
    (1 <= x) & (x <= LATEST_DEADLINE)
}

fn is_release(x: u32) -> bool
    ensures { result ≡ is_release x }
{
    x <= LATEST_RELEASE
}

pub fn out_of_range(line: Line) -> bool
    ensures { result ≡ out_of_range line }
{
    match line {
        Line::Units(k, n) => !(is_type(k) & ((1 <= n) & (n <= MOST_UNITS))),
        Line::Times(t, k, b, w) => !(is_task(t) & (is_type(k) & (is_time(b) & is_time(w)))),
        Line::Arrow(from, to) => !(is_task(from) & is_task(to)),
        Line::Deadline(t, d) => !(is_task(t) & is_deadline(d)),
        Line::Release(t, i) => !(is_task(t) & is_release(i)),
        Line::Choice(t, k) => !(is_task(t) & is_type(k)),
    }
}

pub fn at_odds(line: Line) -> bool
    ensures { result ≡ at_odds line }
{
    match line {
        Line::Times(_, _, b, w) => w < b,
        Line::Arrow(from, to) => from == to,
        _ => false,
    }
}
