// Cases settled by computation: proofs alone.
#![tactic(auto)]
