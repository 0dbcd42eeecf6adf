// What the answers to people are made of: words and numbers, entries of lists behind a test of the index, and the elements of a
// picture.
#![tactic(auto)]

pub mod arrows;
pub mod get;
pub mod names;
pub mod places;
pub mod put;
pub mod svg;
