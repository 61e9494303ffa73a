// A session: each line of a script is a command to the one engine that is open, and has one reply.
#![tactic(auto)]

pub mod desk;
pub mod engine;
pub mod serve;
#[cfg(test)]
mod tests;
