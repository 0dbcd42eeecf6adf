// Worked examples of run states, ticks and replays, computed from the definitions: no function.
#![tactic(auto)]
