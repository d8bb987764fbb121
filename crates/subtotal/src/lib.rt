// A plant's part of its party-day's E.
#![tactic(auto)]

pub mod subtotal_call;
