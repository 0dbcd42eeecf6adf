// The tasks are placed one after the other, and the constraint comes from that schedule.
ghost use Rattle.std.specs.Prelude.{◌≡◌, ◌<◌, ◌≤◌, get_or};
ghost use Rattle.plan.specs.Rules.{most_tasks};
ghost use Rattle.adoption_theory.specs.Schedules.{constraint_by};
ghost use Rattle.proposal_theory.specs.Proposals.{bench_after, by_task, held_until, placed};
ghost use Rattle.proposal_choice.specs.Steps.{Placeable, latest};
ghost use Rattle.proposal.specs.Steps.{Orderly, kept};

use plan::{Constraint, MOST_TASKS, Plan};
use proposal_choice::{Choice, choose};
use proposal_order::{by_falling, in_order, start_keys};
use simulation_waits::{ALL_UNITS, MOST_PER_TYPE};

// Of each task the type, the start and the finish, 0 until it is placed; of each unit the finish of the last task placed on it.
#[derive(Drop)]
struct Bench {
    types: [usize; MOST_TASKS],
    starts: [u32; MOST_TASKS],
    finishes: [u32; MOST_TASKS],
    free: [u32; ALL_UNITS],
}

impl Bench {
    // Task t takes a unit.
    fn place(&mut self, p: &Plan, t: usize)
        requires t_lt_most_tasks { (t < most_tasks) × Placeable p.now.units p.now.wcet t self.old.free }
        requires t_bound { held_until p.now.predecessors p.now.releases self.old.finishes t ≤ latest }
        ensures { kept self.new ≡ placed p.now.units p.now.wcet p.now.predecessors p.now.releases t (kept self.old) }
    {
        let needed = plan::predecessors_of(&p.predecessors, t);
        let waited = simulation::latest_finish(&self.finishes, needed);
        let held = waited.max(plan::release_of(&p.releases, t));
        let Choice { unit, finish } = choose(p, t, &self.free, held);
        self.types[t] = unit / MOST_PER_TYPE;
        self.starts[t] = self.free[unit].max(held);
        self.finishes[t] = finish;
        self.free[unit] = finish;
    }
}

// The constraint of the schedule in which the tasks of an order are placed one after the other.
pub fn constraint_of(p: &Plan, order: &[usize; MOST_TASKS]) -> Constraint
    requires { Orderly p.now order.now }
    ensures { result ≡ constraint_by (by_task p.now.tasks
        (bench_after p.now.units p.now.wcet p.now.predecessors p.now.releases (λ n. get_or order.now n 0) p.now.tasks)) }
{
    let tasks = p.tasks;
    let mut bench = Bench {
        types: [0; MOST_TASKS],
        starts: [0; MOST_TASKS],
        finishes: [0; MOST_TASKS],
        free: [0; ALL_UNITS],
    };
    for &t in &order[..tasks] {
        bench.place(p, t);
    }
    let keys = start_keys(&bench.starts);
    let by_start = by_falling(&keys, tasks);
    let chosen = in_order(&bench.types, &by_start, tasks);
    Constraint {
        len: tasks,
        order: by_start,
        chosen,
    }
}
