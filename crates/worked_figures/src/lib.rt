// Hours worked, and multipliers, by computation: proofs alone.
#![tactic(auto)]
