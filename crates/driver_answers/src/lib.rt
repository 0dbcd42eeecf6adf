// The commands of the driver, what is kept between them, and the answers that it prints.
#![tactic(auto)]

pub mod commands;
pub mod output;
mod schedules;
