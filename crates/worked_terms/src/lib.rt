// The working of money by computation.
#![tactic(auto)]
