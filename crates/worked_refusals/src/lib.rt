// Cases refused by computation: proofs alone.
#![tactic(auto)]
