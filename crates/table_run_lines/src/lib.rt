// The lines of a timetable, from a constraint and its run.
#![tactic(auto)]

ghost use Rattle.std.specs.Prelude.{◌≡◌, ◌∷◌, ◌*◌, ◌≤◌, length};
ghost use Rattle.plan.specs.Rules.{most_tasks};
ghost use Rattle.table_lines.specs.Texts.{field};
ghost use Rattle.table_run_lines.specs.RunText.{line, lines_of, text_of};
ghost use Rattle.table_lines.specs.Steps.{Put, Room};

use plan::Constraint;
use simulation_run::Simulation;
use table_lines::{
    decimal_length, instant_of, put_bytes, put_each, put_field, put_pair, total_length,
};

// Writes the line of a task t on type k that starts at s and finishes at f.
fn put_line(buffer: &mut [u8], at: usize, t: usize, k: usize, s: usize, f: usize) -> usize
    requires { Room buffer.old at (line t k s f) }
    ensures { Put buffer.old at (line t k s f) buffer.new result }
{
    let next = put_pair(buffer, at, t, k, b'\t');
    put_pair(buffer, next, s, f, b'\n')
}

fn line_length(t: usize, k: usize, s: usize, f: usize) -> usize
    ensures { (result ≡ length (line t k s f)) × (result ≤ 84) }
{
    decimal_length(t) + decimal_length(k) + decimal_length(s) + decimal_length(f) + 4
}

// How many bytes the lines of all positions have.
fn lines_length(c: &Constraint, s: &Simulation) -> usize
    requires { c.now.len ≤ most_tasks }
    ensures { (result ≤ c.now.len * 85) × (result ≡ length (lines_of c.now s.now c.now.len)) }
{
    total_length(c.len, |i| {
        let t = c.order[i];
        let k = c.chosen[i];
        line_length(t, k, instant_of(&s.starts, t), instant_of(&s.finishes, t))
    })
}

// Writes these lines from the start of the buffer on.
fn put_lines(c: &Constraint, s: &Simulation, buffer: &mut [u8]) -> usize
    requires { (c.now.len ≤ most_tasks) × Room buffer.old 0 (lines_of c.now s.now c.now.len) }
    ensures { Put buffer.old 0 (lines_of c.now s.now c.now.len) buffer.new result }
{
    put_each(buffer, c.len, |buffer, at, i| {
        let t = c.order[i];
        let k = c.chosen[i];
        put_line(
            buffer,
            at,
            t,
            k,
            instant_of(&s.starts, t),
            instant_of(&s.finishes, t),
        )
    })
}

// The last line: `R` and the response.
fn put_last(buffer: &mut [u8], at: usize, response: usize) -> usize
    requires { Room buffer.old at (82 ∷ 9 ∷ field response 10) }
    ensures { Put buffer.old at (82 ∷ 9 ∷ field response 10) buffer.new result }
{
    let next = put_bytes(buffer, at, b"R\t");
    put_field(buffer, next, response, b'\n')
}

// How many bytes the whole text has.
pub fn text_length(c: &Constraint, s: &Simulation) -> usize
    requires { c.now.len ≤ most_tasks }
    ensures { result ≡ length (text_of c.now s.now) }
{
    lines_length(c, s) + decimal_length(s.response as usize) + 3
}

// Writes the whole text from the start of the buffer on, and answers its length.
pub fn put_text(c: &Constraint, s: &Simulation, buffer: &mut [u8]) -> usize
    requires { (c.now.len ≤ most_tasks) × Room buffer.old 0 (text_of c.now s.now) }
    ensures { Put buffer.old 0 (text_of c.now s.now) buffer.new result }
{
    let at = put_lines(c, s, buffer);
    put_last(buffer, at, s.response as usize)
}
