// What is drawn in a picture: the axis of time, the bars of the tasks with their marks, and the key that says what the marks mean.
#![tactic(auto)]

pub mod axis;
pub mod bars;
pub mod key;
