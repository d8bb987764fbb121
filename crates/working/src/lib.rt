// The pencil working of one hour of one event: its figures, and the comparisons of its conduct test.
#![tactic(auto)]

pub mod figures;
pub mod hour;
