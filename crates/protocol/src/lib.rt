// The rules of the protocol as definitions over plain data, and the promise over every run of turns.
#![tactic(auto)]

pub mod data;
pub mod promise;
