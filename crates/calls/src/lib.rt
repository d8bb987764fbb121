// The answers of the smaller public calls, and what refuses their arguments.
#![tactic(auto)]

pub mod answers;
pub mod out_of_range;

pub use answers::{Refusal, TimesFailed};
