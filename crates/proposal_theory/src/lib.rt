// The order that the bench proposes (document 02, 8): which task is placed when and where, and what follows.
// Definitions in specs/, laws in proofs/, no function.
#![tactic(auto)]

use plan::Constraint;

// What C is handed: the number and the place of a refusal, or 0 and 0; the constraint, all zeros where refused.
#[repr(C)]
#[derive(Clone, Copy)]
pub struct Proposal {
    pub number: u32,
    pub place: usize,
    pub constraint: Constraint,
}
