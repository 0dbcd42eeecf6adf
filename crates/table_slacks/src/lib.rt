// The margins of a plan as text, in a lent buffer (document 02, 2).
#![tactic(auto)]

ghost use Rattle.std.specs.Prelude.{◌≡◌, length};
ghost use Rattle.plan.specs.Refusals.{refused};
ghost use Rattle.table_lines.specs.Steps.{Outcome};
ghost use Rattle.table_slacks.specs.SlackTable.{slack_buffer_after, slack_tabled, slack_text_of};

use lengths::slacks_length;
use plan::{Constraint, Plan, Verdict};
use simulation::Simulation;
use table_lines::{Written, accepted, fits};
use table_slack_lines::put_slacks;

mod lengths;

// Bytes enough for every text of margins.
pub const SLACK_ROOM: usize = 1935;

// The margins in a run: its refusal, or 19 where the buffer is too short, or the bytes of the text that is written.
fn write_slacks(p: &Plan, s: &Simulation, buffer: &mut [u8]) -> Result<usize, Verdict>
    ensures { Outcome (refused s.now.number s.now.place) (slack_text_of p.now s.now) buffer.old result buffer.new }
{
    accepted(s.number, s.place)?;
    let r = slack::slacks_in(p, s);
    fits(slacks_length(p, s, &r), buffer.len())?;
    Ok(put_slacks(p, s, &r, buffer))
}

// The margins in the run in which each task takes its worst time.
#[tactic(auto, using(crate::proofs::WorstRun::slack_answer, crate::proofs::WorstRun::slack_bytes, crate::proofs::WorstRun::slack_refused, crate::proofs::WorstRun::slack_untouched))]
pub fn slack_table(p: Plan, c: Constraint, buffer: &mut [u8]) -> Written
    ensures { (result ≡ slack_tabled p c (length buffer.old))
        × (buffer.new ≡ slack_buffer_after p c buffer.old) }
{
    let s = simulation::bound(p, c);
    Written::from(write_slacks(&p, &s, buffer))
}
