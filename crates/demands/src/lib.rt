// The three demands: specs/Demands has the claims, and run the calls of settle they are about.
#![tactic(auto)]

pub mod run;
