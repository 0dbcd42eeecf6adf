// Worked examples of the check, computed from the definitions: no function.
#![tactic(auto)]
