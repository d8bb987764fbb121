// Where the line of a bid's conduct test runs.
#![tactic(auto)]

pub mod line_call;
pub mod open_line;
