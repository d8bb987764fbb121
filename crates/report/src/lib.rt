// The listing of a case: its text, proved equal to a definition.
#![tactic(auto)]

pub mod case_listing;
pub mod lines;
pub mod text;
