// What the driver reads: lines and their fields, and values put into the parts of a plan, a constraint or a run state.
#![tactic(auto)]

pub mod fields;
pub mod input;
pub mod put;
