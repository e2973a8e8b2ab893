// Text: decimal numbers and words, read from bytes, and numbers as bytes.
#![tactic(auto)]

pub mod bytes;
pub mod decimals;
pub mod word;
