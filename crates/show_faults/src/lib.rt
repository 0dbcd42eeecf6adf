// What is wrong with a line that has one of the six forms (refusals 3 to 7), and with lines that could be read (8 to 10).
#![tactic(auto)]

pub mod checks;
pub mod faults;
