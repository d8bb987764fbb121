// N3 and N2 of an event: the instances that it counts.
#![tactic(auto)]

pub mod instances;
