// The settlement of a case into rows.
#![tactic(auto)]

pub mod settle;
