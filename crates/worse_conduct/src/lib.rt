// Worsening changes, and what a list of them never lowers: definitions and their proofs, no code.
#![tactic(auto)]
