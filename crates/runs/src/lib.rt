// Whole sessions: decoded, run and printed; that steps read them, that they can come in pieces, and how they are written. Specs
// and proofs, no function.
#![tactic(auto)]
