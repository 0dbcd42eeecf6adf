// Schedules that were worked out elsewhere (document 02, 5): what they are, when one is taken, and what its constraint is.
// Definitions in specs/, laws in proofs/, no function.
#![tactic(auto)]

use plan::{Constraint, MOST_TASKS};

// A task, the type of its unit, and when it starts and finishes.
#[repr(C)]
#[derive(Clone, Copy, Debug, Default, PartialEq, Eq)]
pub struct Record {
    pub task: u32,
    pub unit_type: u32,
    pub start: u32,
    pub finish: u32,
}

// A list of records by columns: how many there are, and what each of the first 64 says. The plain arrays are a form of the paper.
#[repr(C)]
#[derive(Clone, Copy, Debug, PartialEq, Eq)]
pub struct Schedule {
    pub len: usize,
    pub tasks: [u32; MOST_TASKS],
    pub types: [u32; MOST_TASKS],
    pub starts: [u32; MOST_TASKS],
    pub finishes: [u32; MOST_TASKS],
}

// What C is handed: the number and the place of a refusal, or 0 and 0; the constraint of an accepted list, zeros where refused.
#[repr(C)]
#[derive(Drop)]
pub struct Adoption {
    pub number: u32,
    pub place: usize,
    pub constraint: Constraint,
}
