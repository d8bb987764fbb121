// The smaller public calls of the conduct tests, each with its refusals.
#![tactic(auto)]

pub mod conduct_calls;
