// Times by task number: those of the chosen types, and 18.
#![tactic(auto)]

ghost use Rattle.std.specs.Prelude.{◌≡◌, length};
ghost use Rattle.plan.specs.Steps.{Positions};
ghost use Rattle.simulation_times.specs.Times.{ChosenTimes, Lowest, outside_at};

use plan::{Constraint, MOST_PAIRS, MOST_TASKS, Plan};

// The time listed for each task of a constraint on its chosen type, by task number.
pub fn chosen_times(times: &[u32; MOST_PAIRS], c: &Constraint) -> [u32; MOST_TASKS]
    requires { Positions c.now.order c.now.chosen c.now.len }
    ensures { ChosenTimes times.now c.now.order c.now.chosen c.now.len result }
{
    let mut by_task = [0; MOST_TASKS];
    for k in 0..c.len {
        let t = c.order[k];
        by_task[t] = plan::time_of(times, t, c.chosen[k]);
    }
    by_task
}

// 18: the lowest task whose time is not from 1 to the worst of its chosen type.
pub fn first_outside(p: &Plan, c: &Constraint, times: &[u32]) -> Option<usize>
    requires { Positions c.now.order c.now.chosen p.now.tasks × (length times.now ≡ p.now.tasks) }
    ensures { Lowest p.now.tasks c.now.order
        (outside_at p.now.wcet c.now.order c.now.chosen times.now) result }
{
    let tasks = p.tasks;
    // The number of tasks stands for none, so that one comparison finds the lower.
    let mut lowest = tasks;
    for k in 0..tasks {
        let t = c.order[k];
        let x = times[t];
        let within = (1 <= x) & (x <= plan::time_of(&p.wcet, t, c.chosen[k]));
        if !within & (t < lowest) {
            lowest = t;
        }
    }
    (lowest < tasks).then_some(lowest)
}
