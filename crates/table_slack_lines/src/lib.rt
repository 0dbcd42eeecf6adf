// Writes the margins as text, from a plan, its run and the slacks in it (document 02, 2).
#![tactic(auto)]

ghost use Rattle.std.specs.Prelude.{◌<◌};
ghost use Rattle.plan.specs.Rules.{most_tasks};
ghost use Rattle.table_lines.specs.Steps.{Put, Room};
ghost use Rattle.table_slack_lines.specs.SlackText.{least_line, signed_field, slack_line, slack_line_of, slack_lines, slacks_text};

use plan::{MOST_TASKS, Plan};
use simulation::Simulation;
use slack::{Parts, Slacks};
use table_lines::{instant_of, put_bytes, put_each, put_field, put_pair};

// Writes the sign of a number that is below zero, then the number and the byte that ends it.
fn put_signed(buffer: &mut [u8], at: usize, s: Parts, mark: u8) -> usize
    requires { Room buffer.old at (signed_field s mark) }
    ensures { Put buffer.old at (signed_field s mark) buffer.new result }
{
    let digits = put_bytes(buffer, at, if s.negative { b"-" } else { b"" });
    put_field(buffer, digits, s.size, mark)
}

// Writes the line of a task t with deadline d that finishes at f and has slack x.
fn put_slack(buffer: &mut [u8], at: usize, t: usize, d: usize, f: usize, x: Parts) -> usize
    requires { Room buffer.old at (slack_line t d f x) }
    ensures { Put buffer.old at (slack_line t d f x) buffer.new result }
{
    let finish = put_pair(buffer, at, t, d, b'\t');
    let margin = put_field(buffer, finish, f, b'\t');
    put_signed(buffer, margin, x, b'\n')
}

// Writes the line of task t, if it has a deadline; r has the slacks.
fn put_task(p: &Plan, s: &Simulation, r: &Slacks, t: usize, buffer: &mut [u8], at: usize) -> usize
    requires { (t < most_tasks) × Room buffer.old at (slack_line_of p.now.deadlines s.now.finishes r.now.slacks t) }
    ensures { Put buffer.old at (slack_line_of p.now.deadlines s.now.finishes r.now.slacks t) buffer.new result }
{
    let d = plan::deadline_of(&p.deadlines, t);
    let due = d != 0;
    if !due {
        return at;
    }
    let x = slack::parts_of(r.slacks[t]);
    put_slack(buffer, at, t, d as usize, instant_of(&s.finishes, t), x)
}

// Writes these lines from the start of the buffer on.
fn put_tasks(p: &Plan, s: &Simulation, r: &Slacks, buffer: &mut [u8]) -> usize
    requires { Room buffer.old 0 (slack_lines p.now.deadlines s.now.finishes r.now.slacks) }
    ensures { Put buffer.old 0 (slack_lines p.now.deadlines s.now.finishes r.now.slacks) buffer.new result }
{
    put_each(
        buffer,
        MOST_TASKS,
        |buffer, at, t| put_task(p, s, r, t, buffer, at),
    )
}

// The last line: `L`, the least slack, its task.
fn put_least(buffer: &mut [u8], at: usize, least: Parts, t: usize) -> usize
    requires { Room buffer.old at (least_line least t) }
    ensures { Put buffer.old at (least_line least t) buffer.new result }
{
    let margin = put_bytes(buffer, at, b"L\t");
    let next = put_signed(buffer, margin, least, b'\t');
    put_field(buffer, next, t, b'\n')
}

// Writes the whole text from the start of the buffer on, and answers its length.
pub fn put_slacks(p: &Plan, s: &Simulation, r: &Slacks, buffer: &mut [u8]) -> usize
    requires { Room buffer.old 0 (slacks_text p.now s.now r.now) }
    ensures { Put buffer.old 0 (slacks_text p.now s.now r.now) buffer.new result }
{
    if r.any {
        let at = put_tasks(p, s, r, buffer);
        return put_least(buffer, at, slack::parts_of(r.least), r.task);
    }
    put_bytes(buffer, 0, b"no deadlines\n")
}
