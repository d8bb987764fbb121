// The smaller public calls of multipliers, penalties and windows, each with its refusals.
#![tactic(auto)]

pub mod sanction_calls;
