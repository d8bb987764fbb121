// The instances that N3 and N2 of an event counted.
#![tactic(auto)]

pub mod instance_bits;
