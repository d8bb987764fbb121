// Numbers in bytes, signed words and masks: the vocabulary of the crates above.
#![tactic(auto)]

pub mod bounded;
pub mod bytes;
pub mod masks;
pub mod numbers;
pub mod words;
