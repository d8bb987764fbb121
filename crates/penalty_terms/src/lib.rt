// The terms of an event's penalty.
#![tactic(auto)]

pub mod hour_terms;
pub mod penalty_working;
