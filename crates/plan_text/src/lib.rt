// Reads a plan text (document 01, "The plan text").
#![tactic(auto)]

ghost use Rattle.std.specs.Prelude.{◌≡◌, ◌≤◌, length};
ghost use Rattle.plan.specs.Refusals.{no_constraint, no_plan};
ghost use Rattle.plan_text.specs.Reading.{nothing};
ghost use Rattle.text_form.specs.Form.{most_bytes};
ghost use Rattle.plan_text.specs.Text.{answer_from, read_text, refused};

use plan::{Constraint, Plan, Verdict};
use text_fault::{Kind, Seen, line_fault};
use text_form::line_at;
pub use text_form::{Line, MOST_DIGITS, read_line};

pub const MOST_BYTES: usize = 32768;

// What C is handed: the plan and the constraint of an accepted text, with number and place 0; or a refusal's number and place, with zeros.
#[repr(C)]
#[derive(Drop)]
pub struct Answer {
    pub number: u32,
    pub place: usize,
    pub plan: Plan,
    pub constraint: Constraint,
}

// Before the first line.
fn no_line() -> Seen
    ensures { result ≡ nothing.seen }
{
    Seen {
        kind: Kind::U,
        timed: 0,
        released: 0,
        listed: 0,
    }
}

// Fills a plan and a constraint that are all zero by the lines of a text that is not too long; or says which line is refused.
fn read_lines(text: &[u8], p: &mut Plan, c: &mut Constraint) -> Result<(), Verdict>
    requires { ((p.old ≡ no_plan) × (c.old ≡ no_constraint)) × (length text.now ≤ most_bytes) }
    ensures { answer_from result p.new c.new ≡ read_text text.now }
{
    let mut seen = no_line();
    let mut at = 0;
    let mut place = 1;
    // No `for`: where a line begins is known once the line before it is read.
    while at < text.len() {
        let Some((line, end)) = line_at(text, at) else {
            return Err(Verdict::refused(2, place));
        };
        if let Some(fault) = line_fault(p, seen, line) {
            return Err(Verdict::refused(fault.number(), place));
        }
        text_fill::add_to_plan(p, line);
        text_fill::add_to_constraint(c, line);
        seen = text_fill::seen(seen, line);
        at = end + 1;
        place += 1;
    }
    Ok(())
}

fn refuse(v: Verdict) -> Answer
    ensures { result ≡ refused v.number v.place }
{
    Answer {
        number: v.number,
        place: v.place,
        plan: plan::no_plan(),
        constraint: plan::no_constraint(),
    }
}

// The plan and the constraint of a text, or its first refusal. A text that is too long is refused before there is a plan to fill.
pub fn read(text: &[u8]) -> Answer
    ensures { result ≡ read_text text.now }
{
    if MOST_BYTES < text.len() {
        return refuse(Verdict::refused(1, 0));
    }
    let mut plan = plan::no_plan();
    let mut constraint = plan::no_constraint();
    match read_lines(text, &mut plan, &mut constraint) {
        Ok(()) => Answer {
            number: 0,
            place: 0,
            plan,
            constraint,
        },
        Err(refusal) => refuse(refusal),
    }
}
