// Writes the timetable of a plan into a lent buffer (document 01, "Timetable and program").
#![tactic(auto)]

ghost use Rattle.std.specs.Prelude.{◌≡◌, ◌≤◌, length};
ghost use Rattle.plan.specs.Rules.{most_tasks};
ghost use Rattle.plan.specs.Refusals.{refused};
ghost use Rattle.table_lines.specs.Steps.{Outcome};
ghost use Rattle.table_run_lines.specs.RunText.{text_of};
ghost use Rattle.timetable.specs.Table.{buffer_after, timetabled, worst_buffer_after, worst_timetabled};

use plan::{Constraint, Plan, Verdict};
use simulation::Simulation;
pub use table_lines::Written;
use table_lines::{accepted, fits};
use table_run_lines::{put_text, text_length};

// The bytes of the longest timetable.
pub const LONGEST_TIMETABLE: usize = 1456;

// The timetable of a simulation: its refusal, or 19 where the buffer is too short, or the bytes of the text that is written.
fn write_run(c: &Constraint, s: &Simulation, buffer: &mut [u8]) -> Result<usize, Verdict>
    requires { s.now.number ≡ 0 → c.now.len ≤ most_tasks }
    ensures { Outcome (refused s.now.number s.now.place) (text_of c.now s.now) buffer.old result buffer.new }
{
    accepted(s.number, s.place)?;
    fits(text_length(c, s), buffer.len())?;
    Ok(put_text(c, s, buffer))
}

// The timetable of the run in which each task takes its time of `times`.
#[tactic(auto, using(crate::proofs::Runs::given_few, crate::proofs::Runs::given_answer, crate::proofs::Runs::given_bytes, crate::proofs::Runs::given_refused, crate::proofs::Runs::given_untouched))]
pub fn timetable(p: Plan, c: Constraint, times: &[u32], buffer: &mut [u8]) -> Written
    ensures { (result ≡ timetabled p c times.now (length buffer.old))
        × (buffer.new ≡ buffer_after p c times.now buffer.old) }
{
    let s = simulation::simulate(p, c, times);
    Written::from(write_run(&c, &s, buffer))
}

// The timetable of the run in which each task takes its worst time.
#[tactic(auto, using(crate::proofs::Runs::worst_few, crate::proofs::Runs::worst_answer, crate::proofs::Runs::worst_bytes, crate::proofs::Runs::worst_refused, crate::proofs::Runs::worst_untouched))]
pub fn worst_timetable(p: Plan, c: Constraint, buffer: &mut [u8]) -> Written
    ensures { (result ≡ worst_timetabled p c (length buffer.old))
        × (buffer.new ≡ worst_buffer_after p c buffer.old) }
{
    let s = simulation::bound(p, c);
    Written::from(write_run(&c, &s, buffer))
}
