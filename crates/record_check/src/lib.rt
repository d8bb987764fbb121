// What the records of a case can break: unit numbers, units, reference levels, the correction and past entries.
#![tactic(auto)]

pub mod number_limits;
pub mod past_limits;
pub mod record_limits;
pub mod reference_limits;
pub mod unit_limits;
