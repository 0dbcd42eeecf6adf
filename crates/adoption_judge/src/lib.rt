// Whether a schedule is taken: 8 and 20 to 22, each over the whole list before the next.
#![tactic(auto)]

ghost use Rattle.std.specs.Prelude.{◌≡◌, ◌<◌, ◌≤◌};
ghost use Rattle.task_set.specs.Bounded.{found};
ghost use Rattle.plan.specs.Refusals.{as_result, constraint_of};
ghost use Rattle.plan.specs.Rules.{most_tasks};
ghost use Rattle.adoption_theory.specs.Schedules.{judged, mistimed};
ghost use Rattle.adoption_judge.specs.Steps.{each_once};

use adoption_starts::first_unmeetable;
use adoption_theory::Schedule;
use plan::{Constraint, Plan, Verdict};
use std::array;

// The check's number for a task that is absent or repeats, and for another count than that of the tasks: 20 here.
const MISPLACED: u32 = 9;

// The list as an order, as its records come.
fn as_order(s: &Schedule) -> Constraint
    ensures { result ≡ constraint_of s.now.len s.now.tasks s.now.types }
{
    Constraint {
        len: s.len,
        order: array::from_fn(|i| s.tasks[i] as usize),
        chosen: array::from_fn(|i| s.types[i] as usize),
    }
}

// 8 and 20, as the check of the list as an order finds them.
fn each_once(p: &Plan, s: &Schedule) -> Result<(), Verdict>
    ensures { result ≡ as_result (each_once p.now s.now) }
{
    match plan_check::checked(p, &as_order(s)) {
        Err(v) if v.number == 8 => Err(Verdict::refused(8, 0)),
        Err(v) if v.number == MISPLACED => Err(Verdict::refused(20, v.place)),
        _ => Ok(()),
    }
}

// 21, of record i. The sum is exact: no start is too late for it.
fn is_mistimed(p: &Plan, s: &Schedule, i: usize) -> bool
    requires { i < most_tasks }
    ensures { result ≡ mistimed p.now.types p.now.wcet s.now i }
{
    let k = s.types[i] as usize;
    let worst = plan::time_of(&p.wcet, s.tasks[i] as usize, k);
    let end = u64::from(s.starts[i]) + u64::from(worst);
    (p.types <= k) | (worst == 0) | (u64::from(s.finishes[i]) != end)
}

// 21: the first record with a type that its task cannot use or with another finish than start plus worst.
fn first_mistimed(p: &Plan, s: &Schedule) -> Option<usize>
    requires { s.now.len ≤ most_tasks }
    ensures { result ≡ found s.now.len (mistimed p.now.types p.now.wcet s.now) }
{
    (0..s.len).find(|&i| is_mistimed(p, s, i))
}

// What refuses the list, if anything does.
pub fn judge(p: &Plan, s: &Schedule) -> Result<(), Verdict>
    ensures { result ≡ as_result (judged p.now s.now) }
{
    each_once(p, s)?;
    if let Some(i) = first_mistimed(p, s) {
        return Err(Verdict::refused(21, i));
    }
    if let Some(i) = first_unmeetable(p, s) {
        return Err(Verdict::refused(22, i));
    }
    Ok(())
}
