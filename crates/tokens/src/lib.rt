// The words of a line of text, and the numbers that words write.

#![tactic(auto)]

pub mod number;
pub mod seed;
pub mod words;
