// Both ends of the range of margins are reached (proofs/Ends.antt): no function.
#![tactic(auto)]
