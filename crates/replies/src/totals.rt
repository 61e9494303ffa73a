// How many commands a session had.
ghost use Rattle.std.specs.Prelude.{◌≡◌, Some};
ghost use Rattle.replies.specs.Replies.{told};
ghost use Rattle.replies.specs.Totals.{nil, counted, totals_text};

use crate::reply::{Failure, Reply};
use std::fmt;

// The commands, those that were refused and those that were not understood. Each count stops at its largest value.
#[derive(Clone, Copy)]
pub struct Totals {
    pub commands: u64,
    pub refused: u64,
    pub misunderstood: u64,
}

impl Totals {
    // Nothing was counted yet.
    pub fn new() -> Totals
        ensures { result ≡ nil }
    {
        Totals {
            commands: 0,
            refused: 0,
            misunderstood: 0,
        }
    }

    // Counts a command by its answer.
    pub fn count(&mut self, answer: &Result<Reply, Failure>)
        ensures { self.new ≡ counted (told answer.now) self.old }
    {
        self.commands = self.commands.saturating_add(1);
        match answer {
            Err(Failure::Refused(_)) => self.refused = self.refused.saturating_add(1),
            Err(Failure::NotUnderstood) => self.misunderstood = self
                .misunderstood
                .saturating_add(1),
            _ => {}
        }
    }
}

// The line that closes a session.
impl fmt::Display for Totals {
    ghost output = { λ t. Some (totals_text t) };

    fn fmt<W: fmt::Write>(&self, f: &mut fmt::Formatter<W>) -> fmt::Result {
        let commands = self.commands;
        let refused = self.refused;
        let misunderstood = self.misunderstood;
        write!(
            f,
            "end: {commands} commands, {refused} refused, {misunderstood} not understood"
        )
    }
}
