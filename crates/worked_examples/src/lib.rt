// The worked examples of document 01, computed from the definitions: no function.
#![tactic(auto)]
