// How much is to spare (document 02, 2): the slack of each task with a deadline, which the paper calls its margin.
#![tactic(auto)]

ghost use Rattle.std.specs.Prelude.{◌≡◌, ◌<◌, pos, ◌-ℤ◌};
ghost use Rattle.task_set.specs.Bounded.{tabulate};
ghost use Rattle.plan.specs.Rules.{most_tasks};
ghost use Rattle.slack.specs.Margins.{InRange, no_slacks, parts_of, slack_of, slacks_in, slacks_of, tightest_task};

use plan::{Constraint, MOST_TASKS, Plan};
use simulation::Simulation;
use std::array;

// What C is handed: each task's slack, 0 without deadline; whether some task has a deadline, and of these the least slack and the
// lowest task that has it. Zeros where refused.
#[repr(C)]
#[derive(Clone, Copy)]
pub struct Slacks {
    pub number: u32,
    pub place: usize,
    pub any: bool,
    pub least: i64,
    pub task: usize,
    pub slacks: [i64; MOST_TASKS],
}

// A number that may be below zero, by its sign and its size.
#[derive(Clone, Copy, PartialEq, Eq)]
pub struct Parts {
    pub negative: bool,
    pub size: usize,
}

// The sign of a number, and the number without it.
pub fn parts_of(x: i64) -> Parts
    ensures { result ≡ parts_of x }
{
    Parts {
        negative: x < 0,
        size: x.unsigned_abs() as usize,
    }
}

fn no_slacks(number: u32, place: usize) -> Slacks
    ensures { result ≡ no_slacks number place }
{
    Slacks {
        number,
        place,
        any: false,
        least: 0,
        task: 0,
        slacks: [0; MOST_TASKS],
    }
}

// The deadline minus the finish. Neither is negative, so that the difference fits.
fn difference(deadline: u32, finish: u32) -> i64
    ensures { result ≡ pos deadline -ℤ pos finish }
{
    i64::from(deadline) - i64::from(finish)
}

fn slack_of(p: &Plan, s: &Simulation, t: usize) -> i64
    requires { t < most_tasks }
    ensures { result ≡ slack_of p.now.deadlines s.now.finishes t }
{
    let d = plan::deadline_of(&p.deadlines, t);
    let f = s.finishes[t];
    let due = d != 0;
    if due { difference(d, f) } else { 0 }
}

// The slack of each task, by task number.
fn each_slack(p: &Plan, s: &Simulation) -> [i64; MOST_TASKS]
    ensures { result ≡ tabulate most_tasks (slack_of p.now.deadlines s.now.finishes) }
{
    array::from_fn(|t| slack_of(p, s, t))
}

// The lowest of the tasks with a deadline whose slack is least, and its slack.
fn tightest_task(p: &Plan, slacks: &[i64; MOST_TASKS]) -> Option<(usize, i64)>
    ensures { result ≡ tightest_task p.now.deadlines slacks.now }
{
    let mut best: Option<(usize, i64)> = None;
    for t in 0..MOST_TASKS {
        let s = slacks[t];
        let due = 0 < plan::deadline_of(&p.deadlines, t);
        if due & best.is_none_or(|(_, least)| s < least) {
            best = Some((t, s));
        }
    }
    best
}

// The slacks of a plan in a run; the run's refusal where it has one.
pub fn slacks_in(p: &Plan, s: &Simulation) -> Slacks
    ensures { result ≡ slacks_in p.now s.now }
{
    if s.number != 0 {
        return no_slacks(s.number, s.place);
    }
    let slacks = each_slack(p, s);
    let Some((task, least)) = tightest_task(p, &slacks) else {
        return no_slacks(0, 0);
    };
    Slacks {
        number: 0,
        place: 0,
        any: true,
        least,
        task,
        slacks,
    }
}

// The slacks in the run of worst times, or the first of 8 to 11 that refuses it.
pub fn slacks_of(p: Plan, c: Constraint) -> Slacks
    ensures { (result ≡ slacks_of p c) × InRange result.slacks }
{
    let s = simulation::bound(p, c);
    slacks_in(&p, &s)
}
