// What a tick finds of a sound state: 13, 16 and 14, in this order.
ghost use Rattle.std.specs.Prelude.{◌≡◌, cond, eqb, Ok, Err};
ghost use Rattle.task_set.specs.Sets.{lowest};
ghost use Rattle.plan.specs.Refusals.{as_result, refused};
ghost use Rattle.live_report.specs.Steps.{verdict_by};

use live_marks::Marks;
use plan::Verdict;

// Refused at the lowest task of a faulty set; taken where the set is empty.
fn none_of(number: u32, faulty: u64) -> Result<(), Verdict>
    ensures { result ≡ cond (eqb faulty 0) (Ok tt) (Err (refused number (lowest faulty))) }
{
    if faulty != 0 {
        let place = task_set::lowest_member(faulty) as usize;
        return Err(Verdict::refused(number, place));
    }
    Ok(())
}

// 13, 16 and 14, of a sound state with these marks: whether its run is over, its finished tasks, and those reported.
pub fn report_checked(m: &Marks, over: bool, finished: u64, report: u64) -> Result<(), Verdict>
    ensures { result ≡ as_result (verdict_by m.now over finished report) }
{
    if over {
        return Err(Verdict::refused(13, 0));
    }
    let running = task_set::difference(m.started, finished);
    let overdue = task_set::difference(m.due & running, report);
    let idle = task_set::difference(report, running);
    none_of(16, overdue)?;
    none_of(14, idle)
}
