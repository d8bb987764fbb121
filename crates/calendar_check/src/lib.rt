// Days and capability periods held to the calendar.
#![tactic(auto)]

pub mod calendar_limits;
pub mod field_limits;
