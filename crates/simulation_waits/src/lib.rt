// What a position of the order waits for: the latest finish of its predecessors, and the unit that is free first.
#![tactic(auto)]

ghost use Rattle.std.specs.Prelude.{◌≡◌, ◌<◌, ◌≤◌};
ghost use Rattle.plan.specs.Rules.{most_types, most_units};
ghost use Rattle.simulation_waits.specs.Waits.{FreeFirst, latest_of};

use plan::{MOST_TASKS, MOST_TYPES};

// Room for the units of each type.
pub const MOST_PER_TYPE: usize = plan::MOST_UNITS as usize;

// Room for the units of all types, type by type.
pub const ALL_UNITS: usize = MOST_TYPES * MOST_PER_TYPE;

// The latest finish of the tasks of a set, and 0 for the empty set. Members are found by trailing zeros, a form of the paper.
pub fn latest_finish(finishes: &[u32; MOST_TASKS], s: u64) -> u32
    ensures { result ≡ latest_of finishes.now s }
{
    let mut latest: u32 = 0;
    let mut left = s;
    while left != 0 {
        let t = task_set::lowest_member(left) as usize;
        latest = latest.max(finishes[t]);
        left = task_set::without_lowest(left);
    }
    latest
}

// Where `free` keeps the unit of a type that is free first: the lowest of equals. A place of `free` is sought, so the loop goes by places.
pub fn free_first(free: &[u32; ALL_UNITS], ty: usize, units: u32) -> usize
    requires { (ty < most_types) × ((1 ≤ units) × (units ≤ most_units)) }
    ensures { FreeFirst free.now ty units result }
{
    let base = ty * MOST_PER_TYPE;
    let mut best = base;
    for u in 1..units as usize {
        if free[base + u] < free[best] {
            best = base + u;
        }
    }
    best
}
