// The check: the plan's rules, then three passes over the order of the constraint.
#![tactic(auto)]

ghost use Rattle.std.specs.Prelude.{◌≡◌, ◌≤◌};
ghost use Rattle.task_set.specs.Bounded.{found};
ghost use Rattle.plan.specs.Rules.{most_tasks};
ghost use Rattle.plan.specs.Refusals.{as_result, misplaced, unusable, verdict};
ghost use Rattle.plan.specs.Steps.{unmet};

use plan::{Constraint, Plan, Verdict, is_usable, predecessors_of};
use plan_rules::plan_ok;

// 9: the first position whose task is absent or repeats. A set grows with the positions, here and in 11, so each is a loop.
fn first_misplaced(p: &Plan, c: &Constraint) -> Option<usize>
    requires { p.now.tasks ≤ most_tasks }
    ensures { result ≡ found p.now.tasks (misplaced p.now.tasks c.now.order) }
{
    let mut seen: u64 = 0;
    for i in 0..p.tasks {
        let t = c.order[i];
        if (p.tasks <= t) | task_set::contains(seen, t) {
            return Some(i);
        }
        seen = task_set::inserted(seen, t);
    }
    None
}

// 10: the first position whose type the task cannot use, or is absent.
fn first_unusable(p: &Plan, c: &Constraint) -> Option<usize>
    requires { p.now.tasks ≤ most_tasks }
    ensures { result ≡ found p.now.tasks (unusable p.now.types p.now.wcet c.now.order c.now.chosen) }
{
    (0..p.tasks).find(|&i| {
        let t = c.order[i];
        let k = c.chosen[i];
        (p.types <= k) | !is_usable(&p.wcet, t, k)
    })
}

// 11, in an order of all tasks: the first position with a predecessor that does not stand before it.
fn first_unmet(p: &Plan, c: &Constraint) -> Option<usize>
    requires { p.now.tasks ≤ most_tasks }
    ensures { result ≡ found p.now.tasks (unmet p.now.predecessors c.now.order) }
{
    let mut placed: u64 = 0;
    for i in 0..p.tasks {
        let t = c.order[i];
        if !task_set::is_subset(predecessors_of(&p.predecessors, t), placed) {
            return Some(i);
        }
        placed = task_set::inserted(placed, t);
    }
    None
}

// What the check finds of a plan and a constraint that are lent: that it takes both, or 8 to 11 with the place.
#[tactic(auto, using(crate::proofs::Planned::few))]
pub fn checked(p: &Plan, c: &Constraint) -> Result<(), Verdict>
    ensures { result ≡ as_result (verdict p.now c.now) }
{
    if !plan_ok(p) {
        return Err(Verdict::refused(8, 0));
    }
    let len = c.len;
    if len != p.tasks {
        return Err(Verdict::refused(9, len));
    }
    if let Some(misplaced) = first_misplaced(p, c) {
        return Err(Verdict::refused(9, misplaced));
    }
    if let Some(unusable) = first_unusable(p, c) {
        return Err(Verdict::refused(10, unusable));
    }
    if let Some(unmet) = first_unmet(p, c) {
        return Err(Verdict::refused(11, unmet));
    }
    Ok(())
}

// The same, with 0 and 0 where it takes both.
pub fn check(p: Plan, c: Constraint) -> Verdict
    ensures { result ≡ verdict p c }
{
    if let Err(refusal) = checked(&p, &c) {
        return refusal;
    }
    Verdict::none()
}
