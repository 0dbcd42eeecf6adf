// What a report on a sound state is refused with, and the finishes of the next instant.
#![tactic(auto)]

mod step;
mod verdicts;

pub use step::stamp;
pub use verdicts::report_checked;
