// The text of a transaction: entries of words one space apart, each entry ended by byte 10.
#![tactic(auto)]

pub mod entries;
pub mod entry;
pub mod fault;
mod line;
mod reader;

pub use reader::read;
