// Worked examples of texts that are read and written, computed from the definitions: no function.
#![tactic(auto)]
