// What the commands of a script are answered, and how that is written.
#![tactic(auto)]

pub mod reply;
pub mod texts;
pub mod totals;
