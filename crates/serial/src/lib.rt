// The run of a transaction alone: the yardstick of every other way of running it.
#![tactic(auto)]

pub mod readings;
pub mod run;
