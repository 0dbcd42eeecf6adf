// 22 of a schedule: each start waits for the predecessors and the not-before instant, and finds a unit.
#![tactic(auto)]

ghost use Rattle.std.specs.Prelude.{◌≡◌, ◌<◌, ◌≤◌, ℕ, get_or};
ghost use Rattle.task_set.specs.Bounded.{found};
ghost use Rattle.plan.specs.Rules.{most_tasks, most_types};
ghost use Rattle.adoption_theory.specs.Schedules.{holds, unmeetable};
ghost use Rattle.adoption_starts.specs.Steps.{members_of};

use adoption_theory::Schedule;
use plan::{MOST_TASKS, Plan};
use std::array;

// Record j is of the type k and holds it at an instant.
fn holds(s: &Schedule, k: u32, instant: u32, j: usize) -> bool
    requires { j < most_tasks }
    ensures { result ≡ holds s.now k instant j }
{
    (s.types[j] == k) & ((s.starts[j] <= instant) & (instant < s.finishes[j]))
}

// Each task of a list as the set with that one member.
fn members(tasks: &[u32; MOST_TASKS]) -> [u64; MOST_TASKS]
    ensures { result ≡ members_of tasks.now }
{
    array::from_fn(|i| task_set::inserted(0, tasks[i] as usize))
}

// 22, of record i. The tasks come as sets too: by those the loop finds the needed ones without a shift. One loop for both tests,
// with no branch: `any` and `filter` would each go over the records.
fn is_unmeetable(p: &Plan, s: &Schedule, members: &[u64; MOST_TASKS], i: usize) -> bool
    requires { ((i < s.now.len) × ((s.now.len ≤ most_tasks) × (get_or s.now.types i 0 < most_types)))
        × (members.now ≡ members_of s.now.tasks) }
    ensures { result ≡ unmeetable p.now.units p.now.predecessors p.now.releases s.now i }
{
    let t = s.tasks[i] as usize;
    let needed = plan::predecessors_of(&p.predecessors, t);
    let release = plan::release_of(&p.releases, t);
    let k = s.types[i];
    let start = s.starts[i];
    let mut hasty = false;
    let mut holders: u32 = 0;
    for j in 0..s.len {
        hasty |= task_set::intersects(members[j], needed) & (start < s.finishes[j]);
        holders += u32::from(holds(s, k, start, j));
    }
    hasty | ((start < release) | (p.units[k as usize] < holders))
}

// 22: the first record that starts before a predecessor's finish or its task's not-before instant, or at whose start its type
// has too few units.
pub fn first_unmeetable(p: &Plan, s: &Schedule) -> Option<usize>
    requires { (s.now.len ≤ most_tasks) × ((i : ℕ) → i < s.now.len → get_or s.now.types i 0 < most_types) }
    ensures { result ≡ found s.now.len (unmeetable p.now.units p.now.predecessors p.now.releases s.now) }
{
    let sets = members(&s.tasks);
    (0..s.len).find(|&i| is_unmeetable(p, s, &sets, i))
}
