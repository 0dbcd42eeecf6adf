// The run of a plan and a constraint that the check takes, position by position: its cost does not grow with the times.
#![tactic(auto)]

ghost use Rattle.simulation_run.specs.Steps.{RunOf, Runnable};

use plan::{Constraint, MOST_TASKS, Plan};
use simulation_waits::{ALL_UNITS, free_first, latest_finish};

// What C is handed: the start and the finish of each task, by task number, and the response; zeros where refused.
#[repr(C)]
#[derive(Clone, Copy)]
pub struct Simulation {
    pub number: u32,
    pub place: usize,
    pub response: u32,
    pub starts: [u32; MOST_TASKS],
    pub finishes: [u32; MOST_TASKS],
}

// A position starts no earlier than the position before it, its task's not-before instant, the finishes of its predecessors,
// and the first instant at which a unit of its type is free; `free` keeps the instant from which each unit is free.
// The tasks of `past` have finished by `last`: no finish is looked at twice.
pub fn run(p: &Plan, c: &Constraint, times: &[u32]) -> Simulation
    requires { Runnable p.now c.now times.now }
    ensures { RunOf p.now c.now times.now result }
{
    let tasks = p.tasks;
    let mut starts = [0; MOST_TASKS];
    let mut finishes = [0; MOST_TASKS];
    let mut free = [0; ALL_UNITS];
    let mut last: u32 = 0;
    let mut past: u64 = 0;
    let mut response: u32 = 0;
    for k in 0..tasks {
        let t = c.order[k];
        let ty = c.chosen[k];
        let unit = free_first(&free, ty, p.units[ty]);
        let needed = plan::predecessors_of(&p.predecessors, t);
        let waited = latest_finish(&finishes, task_set::difference(needed, past));
        let earliest = waited.max(plan::release_of(&p.releases, t));
        last = last.max(earliest).max(free[unit]);
        past |= needed;
        let finish = last + times[t];
        starts[t] = last;
        finishes[t] = finish;
        free[unit] = finish;
        response = response.max(finish);
    }
    Simulation {
        number: 0,
        place: 0,
        response,
        starts,
        finishes,
    }
}
