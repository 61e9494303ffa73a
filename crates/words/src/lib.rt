// The words of a text, and the numbers that they spell.
#![tactic(auto)]

pub mod numbers;
pub mod word;
