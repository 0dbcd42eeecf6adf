// The theory of dispatching in a fixed order, by positions of that order: definitions in specs/, laws in proofs/, no function.
#![tactic(auto)]
