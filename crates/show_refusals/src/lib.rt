// Why a text is refused, or why it has no proposal, in sentences.
#![tactic(auto)]

mod circle;
pub mod explain;
