// What the header of a case can break, and the look-ups of units and reference levels.
#![tactic(auto)]

pub mod header_limits;
pub mod lookup;
pub mod refusal;
