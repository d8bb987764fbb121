// The calendar of the hundred years from 2000: months, capability periods and six months back.
#![tactic(auto)]

pub mod months;
pub mod periods;
pub mod table;
