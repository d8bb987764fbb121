// Demand 3 at work on a case, and where it stops.
#![tactic(auto)]
