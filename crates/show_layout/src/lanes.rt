// The lanes of a picture, one for each unit of each type: lane 8 k + u is unit u of type k.
use plan::{Constraint, MOST_TASKS, MOST_TYPES, Plan};
use show_words::get;
use show_words::get::entry;

// The crate of runs, which has the same constant, is not below this one.
const MOST_UNITS: usize = plan::MOST_UNITS as usize;

// No plan has more lanes. It is as many as a plan may have tasks, so that a set of tasks can be one of lanes.
pub const MOST_LANES: usize = MOST_TYPES * MOST_UNITS;

pub fn kind_of(lane: usize) -> usize {
    lane / MOST_UNITS
}

pub fn unit_of(lane: usize) -> usize {
    lane % MOST_UNITS
}

fn lane_of(k: usize, u: usize) -> usize {
    k.saturating_mul(MOST_UNITS).saturating_add(u)
}

// How many units a type has; none past the last type.
pub fn units_of(p: &Plan, k: usize) -> usize {
    entry(&p.units, k) as usize
}

// Whether the bench has the unit of a lane.
pub fn is_there(p: &Plan, lane: usize) -> bool {
    unit_of(lane) < units_of(p, kind_of(lane))
}

pub fn is_first(lane: usize) -> bool {
    unit_of(lane) == 0
}

// How many lanes there are.
pub fn count(p: &Plan) -> usize {
    (0..MOST_LANES).filter(|&i| is_there(p, i)).count()
}

// The lane of the lowest unit of type k that is free at an instant, when each lane is free from its instant on. By the rules a task
// starts only when there is one.
fn free_lane(free: &[u32; MOST_LANES], k: usize, count: usize, start: u32) -> usize {
    (0..count)
        .map(|u| lane_of(k, u))
        .find(|&lane| entry(free, lane) <= start)
        .unwrap_or(lane_of(k, 0))
}

// The lane of each task, by task number: tasks start in the order of the constraint, each on the lowest unit of its type that is free.
// This crate does not know a simulation, so it is lent the two arrays of one.
pub fn of_tasks(
    p: &Plan,
    c: &Constraint,
    starts: &[u32; MOST_TASKS],
    finishes: &[u32; MOST_TASKS],
) -> [usize; MOST_TASKS] {
    let mut lanes = [0; MOST_TASKS];
    let mut free = [0; MOST_LANES];
    for (&t, &k) in c.order.iter().zip(c.chosen.iter()).take(p.tasks) {
        let lane = free_lane(&free, k, units_of(p, k), entry(starts, t));
        get::set(&mut lanes, t, lane);
        get::set(&mut free, lane, entry(finishes, t));
    }
    lanes
}

// The lanes of some tasks, as a set.
pub fn of_set(lanes: &[usize; MOST_TASKS], tasks: u64) -> u64 {
    lanes
        .iter()
        .enumerate()
        .filter(|&(t, _)| task_set::contains(tasks, t))
        .fold(0, |found, (_, &lane)| task_set::inserted(found, lane))
}
