// The unit that a task takes: of the units on which it finishes first the one with the lowest number. Unit u of type k has the
// number 8 k + u.
#![tactic(auto)]

ghost use Rattle.std.specs.Prelude.{◌≡◌, ◌+◌, ◌<◌, ◌≤◌};
ghost use Rattle.plan.specs.Rules.{most_types, most_units};
ghost use Rattle.proposal_theory.specs.Proposals.{finish_on, unit_of};
ghost use Rattle.proposal_choice.specs.Steps.{BestBelow, Placeable, Reached, Soonest, first_slot, latest};

use plan::{MOST_TYPES, Plan};
use simulation_waits::{ALL_UNITS, MOST_PER_TYPE};

// The earliest start on the first n units of type k for a task that is held until an instant.
fn soonest(free: &[u32; ALL_UNITS], k: usize, n: u32, held: u32) -> u32
    requires { (k < most_types) × ((1 ≤ n) × (n ≤ most_units)) }
    ensures { Soonest free.now k n held result }
{
    let base = k * MOST_PER_TYPE;
    let mut start = free[base];
    for u in 0..n as usize {
        let instant = free[base + u];
        if instant <= held {
            return held;
        }
        start = start.min(instant);
    }
    start
}

// The first of n units of type k that is free at an instant. The answer is a place of `free`, so `find` over unit numbers is no plainer.
pub fn first_free(free: &[u32; ALL_UNITS], k: usize, n: u32, start: u32) -> Option<usize>
    requires { (k < most_types) × (n ≤ most_units) }
    ensures { result ≡ first_slot free.now k n start }
{
    let base = k * MOST_PER_TYPE;
    for u in 0..n as usize {
        if free[base + u] <= start {
            return Some(base + u);
        }
    }
    None
}

// A type and the earliest finish on its units.
#[derive(Clone, Copy)]
struct Best {
    unit_type: usize,
    finish: u32,
}

// No task finishes so late: a minimum begins with it, so that no type is asked whether one was found before.
const NEVER: u32 = plan::LAST_INSTANT + 1;

// Type k in place of the best one so far, if the task can use it and finishes earlier there. A unit starts it no sooner than `held`.
fn better_of(p: &Plan, t: usize, free: &[u32; ALL_UNITS], held: u32, k: usize, best: Best) -> Best
    requires { (k < most_types) × ((held ≤ latest) × (Placeable p.now.units p.now.wcet t free.now
        × BestBelow p.now.units p.now.wcet t free.now held k best)) }
    ensures { BestBelow p.now.units p.now.wcet t free.now held (k + 1) result }
{
    let time = plan::time_of(&p.wcet, t, k);
    if (time == 0) | (best.finish <= held + time) {
        return best;
    }
    let finish = soonest(free, k, p.units[k], held) + time;
    if finish < best.finish {
        return Best {
            unit_type: k,
            finish,
        };
    }
    best
}

// The type with the earliest finish, the first of equals.
fn best_type(p: &Plan, t: usize, free: &[u32; ALL_UNITS], held: u32) -> Best
    requires { (held ≤ latest) × Placeable p.now.units p.now.wcet t free.now }
    ensures { BestBelow p.now.units p.now.wcet t free.now held most_types result
        × Reached p.now.units p.now.wcet t free.now held result.unit_type result.finish }
{
    let mut best = Best {
        unit_type: 0,
        finish: NEVER,
    };
    for k in 0..MOST_TYPES {
        best = better_of(p, t, free, held, k, best);
    }
    best
}

// The unit that a task takes, and its finish there.
#[derive(Clone, Copy)]
pub struct Choice {
    pub unit: usize,
    pub finish: u32,
}

pub fn choose(p: &Plan, t: usize, free: &[u32; ALL_UNITS], held: u32) -> Choice
    requires { (held ≤ latest) × Placeable p.now.units p.now.wcet t free.now }
    ensures { (result.unit ≡ unit_of p.now.units p.now.wcet t free.now held)
        × (result.finish ≡ finish_on p.now.wcet t free.now held result.unit) }
{
    let best = best_type(p, t, free, held);
    let k = best.unit_type;
    let finish = best.finish;
    // The finish is that of some unit of the type, so one is free by then.
    let unit = first_free(free, k, p.units[k], finish - plan::time_of(&p.wcet, t, k)).unwrap();
    Choice { unit, finish }
}
