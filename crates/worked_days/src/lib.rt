// Days, windows and periods by computation: proofs alone.
#![tactic(auto)]
