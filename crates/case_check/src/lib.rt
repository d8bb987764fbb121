// The check of a whole case, and what it hands on.
#![tactic(auto)]

pub mod check;
