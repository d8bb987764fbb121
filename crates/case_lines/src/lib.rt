// The lines of the bids of a case.
#![tactic(auto)]
