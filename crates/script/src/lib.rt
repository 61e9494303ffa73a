// The script language: which lines are commands, what each asks for, and the escapes of a text.
#![tactic(auto)]

mod commands;
mod cuts;
mod escapes;
mod lines;

pub use commands::{Command, KindName, Opening, Query, UnknownKind, parse};
pub use escapes::{UnescapeError, unescape};
pub use lines::is_command;
