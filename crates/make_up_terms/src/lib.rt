// The terms of an event's make-up payment.
#![tactic(auto)]

pub mod make_up_working;
