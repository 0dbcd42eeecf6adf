// Worked examples of runs, journals, simulations and margins, computed from the definitions: no function.
#![tactic(auto)]
