// How replies are written.
ghost use Rattle.std.specs.Prelude.{Some};
ghost use Rattle.replies.specs.Replies.{told, told_reply, told_failure};
ghost use Rattle.replies.specs.Texts.{answers_text, reply_text};

use crate::reply::{Failure, Reply};
use std::fmt;

// The answers of a transaction, each after a space.
#[derive(Clone, Copy)]
pub struct Answers<'a>(pub &'a [i64]);

impl fmt::Display for Answers<'_> {
    ghost output = { λ a. Some (answers_text a.0.now) };

    fn fmt<W: fmt::Write>(&self, f: &mut fmt::Formatter<W>) -> fmt::Result {
        for n in self.0 {
            write!(f, " {n}")?;
        }
        Ok(())
    }
}

impl fmt::Display for Reply {
    ghost output = { λ r. Some (reply_text (told_reply r)) };

    fn fmt<W: fmt::Write>(&self, f: &mut fmt::Formatter<W>) -> fmt::Result {
        match self {
            Reply::Joined => write!(f, "joined"),
            Reply::Committed(committed) => {
                let place = committed.place;
                let answers = Answers(committed.readings.answers());
                write!(f, "committed at {place}{answers}")
            }
            Reply::Number(n) => write!(f, "{n}"),
        }
    }
}

impl fmt::Display for Failure {
    ghost output = { λ e. Some (reply_text (told_failure e)) };

    fn fmt<W: fmt::Write>(&self, f: &mut fmt::Formatter<W>) -> fmt::Result {
        match self {
            Failure::NotUnderstood => write!(f, "not understood"),
            Failure::EngineOpen => write!(f, "engine open"),
            Failure::NoEngine => write!(f, "no engine"),
            Failure::NoSuchNumber => write!(f, "no such number"),
            Failure::Refused(refusal) => write!(f, "{refusal}"),
        }
    }
}

// What a command was answered: what it gave, or why it is not served.
#[derive(Clone, Copy)]
pub struct Answered<'a>(pub &'a Result<Reply, Failure>);

impl fmt::Display for Answered<'_> {
    ghost output = { λ a. Some (reply_text (told a.0.now)) };

    fn fmt<W: fmt::Write>(&self, f: &mut fmt::Formatter<W>) -> fmt::Result {
        match self.0 {
            Ok(reply) => write!(f, "{reply}"),
            Err(failure) => write!(f, "{failure}"),
        }
    }
}
