// What a tick finds: a refusal (12, 13, 16 and 14, in this order), or what the walk needs to go on.
ghost use Rattle.std.specs.Prelude.{◌≡◌};
ghost use Rattle.live.specs.Steps.{judged};

use crate::State;
use live_marks::{Marks, mark_positions};
use live_report::report_checked;
use live_sound::{is_over, is_sound};
use plan::Verdict;

// The marks of a sound state whose report is taken.
pub fn judge(s: &State, report: u64) -> Result<Marks, Verdict>
    ensures { result ≡ judged s.now report }
{
    let p = &s.plan;
    let c = &s.constraint;
    let tasks = p.tasks;
    let n = s.started;
    let broken = plan_check::checked(p, c).is_err();
    if broken | (tasks < n) {
        return Err(Verdict::refused(12, 0));
    }
    let m = mark_positions(p, c, &s.starts, n, s.instant);
    let over = is_over(tasks, s.finished);
    if !is_sound(p, &m, &s.starts, &s.finishes, over, s.finished, s.instant) {
        return Err(Verdict::refused(12, 0));
    }
    report_checked(&m, over, s.finished, report)?;
    Ok(m)
}
