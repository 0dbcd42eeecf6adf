// Where everything lies in a picture: instants, lanes and the rows of each, and numbers beside each other.
#![tactic(auto)]

pub mod due;
pub mod lanes;
pub mod rows;
pub mod scale;
pub mod spread;
