// The first engine: it runs one transaction at a time, at once.
#![tactic(auto)]

pub mod checks;
pub mod solo;
