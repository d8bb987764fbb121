// What the events of a case can break, and what the check finds of each.
#![tactic(auto)]

pub mod cell_limits;
pub mod event_limits;
