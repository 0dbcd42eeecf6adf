// What held each task until its start, as a table.
#![tactic(auto)]

mod chain;
mod held;
pub mod why;
