// Mitigated hours, bids in force and make-up of an event of a case.
#![tactic(auto)]

pub mod bids;
pub mod make_up;
pub mod mitigated;
