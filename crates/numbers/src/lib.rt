// The kinds of numbers: counts from 0 that stop at the top, and signed numbers that wrap.
#![tactic(auto)]

pub mod count;
pub mod lean;
