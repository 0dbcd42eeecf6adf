// Where the arrows of a plan lead (document 02, 8).
#![tactic(auto)]

ghost use Rattle.std.specs.Prelude.{◌≡◌, ◌≤◌};
ghost use Rattle.task_set.specs.Sets.{set_of};
ghost use Rattle.plan.specs.Rules.{most_tasks};
ghost use Rattle.ranks_arrows.specs.Arrows.{arrow, circle};
ghost use Rattle.ranks_arrows.specs.Steps.{Known, joined};

use plan::MOST_TASKS;

// The tasks to which an arrow leads from t. Of each task u the bit is at hand, so that nothing is shifted by u.
pub fn successors(predecessors: &[u64; MOST_TASKS], tasks: usize, t: usize) -> u64
    requires { tasks ≤ most_tasks }
    ensures { result ≡ set_of tasks (arrow predecessors.now t) }
{
    let from = task_set::inserted(0, t);
    let mut s: u64 = 0;
    let mut bit: u64 = 1;
    for u in 0..tasks {
        if task_set::intersects(from, plan::predecessors_of(predecessors, u)) {
            s |= bit;
        }
        bit <<= 1;
    }
    s
}

// A set after one look at all tasks: each joins whose predecessors are in it by then.
fn all_joined(predecessors: &[u64; MOST_TASKS], tasks: usize, s: u64) -> u64
    ensures { result ≡ joined predecessors.now tasks s }
{
    let mut out = s;
    for t in 0..tasks {
        if task_set::is_subset(plan::predecessors_of(predecessors, t), out) {
            out = task_set::inserted(out, t);
        }
    }
    out
}

// Whether arrows lead from a task back to itself: then not every task can join.
pub fn leads_back(predecessors: &[u64; MOST_TASKS], tasks: usize) -> bool
    requires { Known predecessors.now tasks }
    ensures { result ≡ circle (arrow predecessors.now) tasks }
{
    let mut s: u64 = 0;
    loop {
        let more = all_joined(predecessors, tasks, s);
        if more == s {
            return (task_set::member_count(s) as usize) < tasks;
        }
        s = more;
    }
}
