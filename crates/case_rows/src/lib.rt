// The rows of an accepted case, one an event, written into the buffer.
#![tactic(auto)]

pub mod rows;
