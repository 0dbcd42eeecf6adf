// The picture of a timetable, drawn.
#![tactic(auto)]

pub mod picture;
mod style;
