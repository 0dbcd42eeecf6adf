// Whether a run state is sound, and whether the run is over.
#![tactic(auto)]

mod sound;

pub use sound::{is_over, is_sound};
