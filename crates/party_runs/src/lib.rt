// The runs and the parties that the events of a case stand in.
#![tactic(auto)]

pub mod parties;
