// The answer to a plan text: its timetable of worst times or the line of its refusal (document 01, "Timetable and program");
// or in place of the timetable its margins (document 02, 2), or the C lines of the order that the bench proposes (document 02, 8).
#![tactic(auto)]

ghost use Rattle.std.specs.Prelude.{◌≡◌, length};
ghost use Rattle.plan.specs.Buffers.{at_start};
ghost use Rattle.plan_text.specs.Text.{read_text};
ghost use Rattle.bench_answer.specs.Steps.{Answered};
ghost use Rattle.bench_answer.specs.Answer.{answer_text, proposal_answer_text, slack_answer_text};

use plan::{Constraint, Plan};
use table_lines::{Written, put_refusal};

// The longest timetable; a refusal's line is shorter.
pub const MOST_ANSWER: usize = timetable::LONGEST_TIMETABLE;

// Enough for every text of margins; a refusal's line is shorter.
pub const MOST_SLACK_ANSWER: usize = table_slacks::SLACK_ROOM;

// Enough for the C lines of every proposal; a refusal's line is shorter.
pub const MOST_PROPOSAL_ANSWER: usize = table_orders::ORDER_ROOM;

// Writes what `table` writes of the plan and the constraint of the text, or the line of a refusal, at the start of `out`, and answers
// how many bytes.
fn answer_with<F>(text: &[u8], out: &mut [u8], table: F) -> usize
where
    F: FnOnce(Plan, Constraint, &mut [u8]) -> Written,
    requires { F.IsAlwaysCallable table }
    ensures { Answered (F.post table) (read_text text.now) out.old result out.new }
{
    let a = plan_text::read(text);
    if a.number != 0 {
        return put_refusal(a.number, a.place, out);
    }
    let w = table(a.plan, a.constraint, out);
    if w.number != 0 {
        return put_refusal(w.number, w.place, out);
    }
    w.written
}

// Writes the answer to the text at the start of `out`, and answers its length.
pub fn answer(text: &[u8], out: &mut [u8; MOST_ANSWER]) -> usize
    ensures { (result ≡ length (answer_text text.now))
        × (out.new ≡ at_start (answer_text text.now) out.old) }
{
    answer_with(text, out, timetable::worst_timetable)
}

// The same, with the margins.
pub fn slack_answer(text: &[u8], out: &mut [u8; MOST_SLACK_ANSWER]) -> usize
    ensures { (result ≡ length (slack_answer_text text.now))
        × (out.new ≡ at_start (slack_answer_text text.now) out.old) }
{
    answer_with(text, out, table_slacks::slack_table)
}

// The same, with the order that the bench proposes, whatever order the text has.
pub fn proposal_answer(text: &[u8], out: &mut [u8; MOST_PROPOSAL_ANSWER]) -> usize
    ensures { (result ≡ length (proposal_answer_text text.now))
        × (out.new ≡ at_start (proposal_answer_text text.now) out.old) }
{
    answer_with(text, out, |p, _c, out| table_orders::proposal_table(p, out))
}
