// The lines of a text, found and quoted, and what keeps a line from being one of the six forms.
#![tactic(auto)]

pub mod form;
pub mod lines;
