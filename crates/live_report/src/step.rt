// The finishes at the next instant: the reported tasks are finished.
ghost use Rattle.std.specs.Prelude.{◌≡◌};
ghost use Rattle.task_set.specs.Bounded.{tabulate};
ghost use Rattle.plan.specs.Rules.{most_tasks};
ghost use Rattle.live_report.specs.Steps.{stamp_at};

use plan::MOST_TASKS;

// The instant is stored as the finish of each reported task: the lowest that is left, by its trailing zeros, so that no other
// task is looked at.
pub fn stamp(finishes: &mut [u32; MOST_TASKS], report: u64, instant: u32)
    ensures { finishes.new ≡ tabulate most_tasks (stamp_at finishes.old report instant) }
{
    let mut left = report;
    while left != 0 {
        let t = task_set::lowest_member(left) as usize;
        finishes[t] = instant;
        left = task_set::removed(left, t);
    }
}
