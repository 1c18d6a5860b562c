// Numbers, lines and fields read out of bytes.
#![tactic(auto)]

pub mod lines;
pub mod numbers;
