// Multipliers and penalties of the events of a case.
#![tactic(auto)]

pub mod dispatch;
pub mod fuel;
pub mod penalties;
pub mod sanction;
pub mod withheld;
