// The smaller public calls of mitigated hours, bids in force and make-up, each with its refusals.
#![tactic(auto)]

pub mod default_bid_calls;
