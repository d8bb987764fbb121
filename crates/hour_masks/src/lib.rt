// The hours of an event that fail its conduct test, by lines: one comparison an hour.
#![tactic(auto)]

pub mod bid_hours;
pub mod columns;
pub mod megawatt_hours;
