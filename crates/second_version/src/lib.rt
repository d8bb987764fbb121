// The version 2 copy of a version 1 file.
#![tactic(auto)]
