// The walk of an instant, on the sets and arrays of a run state.
#![tactic(auto)]

ghost use Rattle.std.specs.Prelude.{◌≡◌, ◌-◌};
ghost use Rattle.plan.specs.Steps.{Positions};
ghost use Rattle.live_walk.specs.Steps.{walk_from};

use plan::{Constraint, MOST_TASKS, MOST_TYPES, Plan};

// How far a walk has come: how many tasks of the order have started, those running, and the starts.
#[derive(Clone, Copy)]
pub struct Walked {
    pub begun: usize,
    pub running: u64,
    pub starts: [u32; MOST_TASKS],
}

// Tasks of the order start at the instant, one after the other, up to the first that may not: all its predecessors must be
// finished, its not-before instant must have come, and a unit of its type must be free.
pub fn walk(
    p: &Plan,
    c: &Constraint,
    users: &[u64; MOST_TYPES],
    instant: u32,
    finished: u64,
    mut w: Walked,
) -> Walked
    requires { Positions c.now.order c.now.chosen c.now.len }
    ensures { result ≡ walk_from p.now.units p.now.predecessors p.now.releases c.now.order
        c.now.chosen users.now instant finished (c.now.len - w.begun) w }
{
    for n in w.begun..c.len {
        let t = c.order[n];
        let k = c.chosen[n];
        let ready = task_set::is_subset(plan::predecessors_of(&p.predecessors, t), finished);
        let released = plan::release_of(&p.releases, t) <= instant;
        let free = task_set::member_count(users[k] & w.running) < p.units[k];
        let may = ready & (released & free);
        if !may {
            return w;
        }
        w.begun = n + 1;
        w.running = task_set::inserted(w.running, t);
        w.starts[t] = instant;
    }
    w
}
