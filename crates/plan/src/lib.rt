// What a plan and a constraint are, their limits and what they keep (document 01, "The plan").
#![tactic(auto)]

ghost use Rattle.std.specs.Prelude.{◌≡◌};
ghost use Rattle.plan.specs.Refusals.{no_constraint, no_plan, no_refusal, refused};
ghost use Rattle.plan.specs.Rules.{deadline_of, instant_of, pair_place, predecessors_of, release_of, time_of, usable};

pub const MOST_TYPES: usize = 8;

pub const MOST_UNITS: u32 = 8;

pub const MOST_TASKS: usize = 64;

pub const MOST_PAIRS: usize = MOST_TASKS * MOST_TYPES;

pub const LONGEST_TIME: u32 = 1000000;

pub const LATEST_DEADLINE: u32 = 1000000;

pub const LATEST_RELEASE: u32 = 1000000;

// No run is longer: from the latest not-before instant on every task one after the other, each with the longest time.
pub const LAST_INSTANT: u32 = LATEST_RELEASE + MOST_TASKS as u32 * LONGEST_TIME;

// Times are kept task by task: pair_index alone knows where one lies. A deadline is 0 for a task without, and so is a
// release, the not-before instant of a task.
#[repr(C)]
#[derive(Clone, Copy)]
pub struct Plan {
    pub types: usize,
    pub units: [u32; MOST_TYPES],
    pub tasks: usize,
    pub bcet: [u32; MOST_PAIRS],
    pub wcet: [u32; MOST_PAIRS],
    pub predecessors: [u64; MOST_TASKS],
    pub deadlines: [u32; MOST_TASKS],
    pub releases: [u32; MOST_TASKS],
}

// The execution order and the chosen type of each task: the first `len` entries of two arrays, as C has them.
#[repr(C)]
#[derive(Clone, Copy)]
pub struct Constraint {
    pub len: usize,
    pub order: [usize; MOST_TASKS],
    pub chosen: [usize; MOST_TASKS],
}

// The number and the place of a refusal; 0 and 0 where nothing is refused. C is handed this and the other structs with `repr(C)`, so
// they have such fields where an answer inside is an Option or a Result.
#[repr(C)]
#[derive(Clone, Copy)]
pub struct Verdict {
    pub number: u32,
    pub place: usize,
}

impl Verdict {
    // A refusal by its number and its place.
    pub fn refused(number: u32, place: usize) -> Verdict
        ensures { result ≡ refused number place }
    {
        Verdict { number, place }
    }

    // That nothing is refused.
    pub fn none() -> Verdict
        ensures { result ≡ no_refusal }
    {
        Verdict::refused(0, 0)
    }
}

pub fn no_plan() -> Plan
    ensures { result ≡ no_plan }
{
    Plan {
        types: 0,
        units: [0; MOST_TYPES],
        tasks: 0,
        bcet: [0; MOST_PAIRS],
        wcet: [0; MOST_PAIRS],
        predecessors: [0; MOST_TASKS],
        deadlines: [0; MOST_TASKS],
        releases: [0; MOST_TASKS],
    }
}

pub fn no_constraint() -> Constraint
    ensures { result ≡ no_constraint }
{
    Constraint {
        len: 0,
        order: [0; MOST_TASKS],
        chosen: [0; MOST_TASKS],
    }
}

// Where the times of task t on type k lie; MOST_PAIRS past the last task or type.
pub fn pair_index(t: usize, k: usize) -> usize
    ensures { result ≡ pair_place t k }
{
    if MOST_TASKS <= t {
        return MOST_PAIRS;
    }
    if MOST_TYPES <= k {
        return MOST_PAIRS;
    }
    t * MOST_TYPES + k
}

// The time of task t on type k, from the best or the worst times; 0 past the last task or type.
pub fn time_of(times: &[u32; MOST_PAIRS], t: usize, k: usize) -> u32
    ensures { result ≡ time_of times.now t k }
{
    times.get(pair_index(t, k)).copied().unwrap_or(0)
}

pub fn is_usable(wcet: &[u32; MOST_PAIRS], t: usize, k: usize) -> bool
    ensures { result ≡ usable wcet.now t k }
{
    0 < time_of(wcet, t, k)
}

// The predecessors of task t; none past the last task.
pub fn predecessors_of(predecessors: &[u64; MOST_TASKS], t: usize) -> u64
    ensures { result ≡ predecessors_of predecessors.now t }
{
    predecessors.get(t).copied().unwrap_or(0)
}

// The instant of task t, from one for each task; 0 for none, and past the last task.
pub fn instant_of(instants: &[u32; MOST_TASKS], t: usize) -> u32
    ensures { result ≡ instant_of instants.now t }
{
    instants.get(t).copied().unwrap_or(0)
}

// The deadline of task t. This and the next are one function by two words of the paper, each with its promise.
pub fn deadline_of(deadlines: &[u32; MOST_TASKS], t: usize) -> u32
    ensures { result ≡ deadline_of deadlines.now t }
{
    instant_of(deadlines, t)
}

// The not-before instant of task t.
pub fn release_of(releases: &[u32; MOST_TASKS], t: usize) -> u32
    ensures { result ≡ release_of releases.now t }
{
    instant_of(releases, t)
}
