// Why a text is refused, or why it has no proposal: a sentence that names the cause, and below it the lines of the text that it
// speaks of. Nothing of a text that is taken, or that has a proposal.
use crate::circle;
use plan::{Constraint, Plan};
use show_faults::{checks, faults};
use show_lines::{form, lines};
use show_words::put;
use std::alloc::AllocError;

// What is too long is most often another file, or one saved with two bytes for each character.
fn too_long(out: &mut Vec<u8>, text: &[u8]) -> Result<(), AllocError> {
    put::words(
        out,
        b"refused 1: the text has more than ",
        plan_text::MOST_BYTES as u64,
        b" bytes; is it the right file, and one plan only?\n",
    )?;
    let first = lines::line(text, 1);
    if form::is_utf16(first) {
        put::text(out, b"  ")?;
        form::put_utf16(out)?;
        put::end_line(out)?;
    }
    lines::quote(out, text, 1)
}

// The numbers are C's: `read` and `check` answer as C reads it.
fn unread(out: &mut Vec<u8>, text: &[u8], number: u32, place: usize) -> Result<(), AllocError> {
    match number {
        1 => too_long(out, text),
        2 => form::show(out, text, place),
        _ => faults::show(out, text, number, place),
    }
}

fn unchecked(out: &mut Vec<u8>, text: &[u8], p: &Plan, c: &Constraint) -> Result<(), AllocError> {
    let Err(refusal) = plan_check::checked(p, c) else {
        return Ok(());
    };
    match refusal.number {
        8 => checks::no_plan(out, text, p.tasks),
        9 => checks::missing_choice(out, text, p),
        10 => checks::unusable_type(out, text, c, refusal.place),
        _ => circle::show(out, text, p, c, refusal.place),
    }
}

// Why a text is refused.
pub fn show(out: &mut Vec<u8>, text: &[u8]) -> Result<(), AllocError> {
    let a = plan_text::read(text);
    match a.number {
        0 => unchecked(out, text, &a.plan, &a.constraint),
        number => unread(out, text, number, a.place),
    }
}

fn without_order(out: &mut Vec<u8>, text: &[u8], p: &Plan) -> Result<(), AllocError> {
    if plan_rules::plan_ok(p) {
        circle::show_alone(out, text, p)
    } else {
        checks::no_plan(out, text, p.tasks)
    }
}

// Why a text has no proposal. Its order, if it has one, does not count.
pub fn show_unproposed(out: &mut Vec<u8>, text: &[u8]) -> Result<(), AllocError> {
    let a = plan_text::read(text);
    match a.number {
        0 => without_order(out, text, &a.plan),
        number => unread(out, text, number, a.place),
    }
}
