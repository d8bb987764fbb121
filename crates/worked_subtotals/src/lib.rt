// The parts of a party-day by computation.
#![tactic(auto)]
