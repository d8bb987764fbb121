// The files of worked cases: definitions alone.
#![tactic(auto)]
