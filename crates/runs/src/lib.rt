// The running rules, how far a task is, and the journal: definitions in specs/, theorems in proofs/, no function.
#![tactic(auto)]
