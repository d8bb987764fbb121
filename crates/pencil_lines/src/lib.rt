// One line of the pencil sheet for each smaller public call, written to standard output.
#![tactic(auto)]

pub mod call_lines;
pub mod print;
