// Worked examples of schedules and proposals, computed from the definitions: no function.
#![tactic(auto)]
