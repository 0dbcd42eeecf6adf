// Sets of tasks that stand at the first positions of an order.
#![tactic(auto)]

ghost use Rattle.std.specs.Prelude.{◌≡◌, ◌≤◌};
ghost use Rattle.plan.specs.Steps.{Positions};
ghost use Rattle.live_marks.specs.Steps.{marks_of};

use plan::{Constraint, MOST_TASKS, MOST_TYPES, Plan};

// The started tasks; those whose worst time has come; those whose worst time comes at the next instant; and the tasks of
// the order by their chosen type.
#[derive(Clone, Copy)]
pub struct Marks {
    pub started: u64,
    pub spent: u64,
    pub due: u64,
    pub users: [u64; MOST_TYPES],
}

// One pass over the positions, of which the first n have started.
pub fn mark_positions(
    p: &Plan,
    c: &Constraint,
    starts: &[u32; MOST_TASKS],
    n: usize,
    instant: u32,
) -> Marks
    requires { Positions c.now.order c.now.chosen c.now.len × (n ≤ c.now.len) }
    ensures { result ≡ marks_of p.now.wcet starts.now c.now.order c.now.chosen c.now.len n instant }
{
    let at = u64::from(instant);
    let mut started: u64 = 0;
    let mut spent: u64 = 0;
    let mut due: u64 = 0;
    let mut users = [0u64; MOST_TYPES];
    for i in 0..c.len {
        let t = c.order[i];
        let k = c.chosen[i];
        users[k] = task_set::inserted(users[k], t);
        if i < n {
            let worst = u64::from(starts[t]) + u64::from(plan::time_of(&p.wcet, t, k));
            started = task_set::inserted(started, t);
            if worst <= at {
                spent = task_set::inserted(spent, t);
            }
            if worst <= at + 1 {
                due = task_set::inserted(due, t);
            }
        }
    }
    Marks {
        started,
        spent,
        due,
        users,
    }
}
