// The worked examples of the rules: specs and proofs, no function.
#![tactic(auto)]
