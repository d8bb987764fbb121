// The rules on plain numbers.
#![tactic(auto)]

pub mod comparisons;
pub mod conduct_tests;
pub mod default_bid_rules;
pub mod ranges;
pub mod sanction_rules;
pub mod threshold;

pub use threshold::Threshold;
