// Operations: what they do, to which part of a value, and what they bring.
ghost use Rattle.std.specs.Prelude.{Some};
ghost use Rattle.kinds.specs.VerbTexts.{verb_text};

use std::fmt;

// What an operation does to its part of a value.
#[derive(Clone, Copy, PartialEq, Eq)]
pub enum Verb {
    Put,
    Add,
    Max,
    Min,
    Last,
    Top,
}

// The verb's word, as a transaction's text writes it.
impl fmt::Display for Verb {
    ghost output = { λ v. Some (verb_text v) };

    fn fmt<W: fmt::Write>(&self, f: &mut fmt::Formatter<W>) -> fmt::Result {
        f.write_str(match self {
            Verb::Put => "put",
            Verb::Add => "add",
            Verb::Max => "max",
            Verb::Min => "min",
            Verb::Last => "last",
            Verb::Top => "top",
        })
    }
}

// What an operation brings: a number, and the worker and the mark that it comes with.
#[derive(Clone, Copy)]
pub struct Argument {
    pub number: i64,
    pub worker: u8,
    pub mark: u32,
}

// One change of one part.
#[derive(Clone, Copy)]
pub struct Operation {
    pub part: u8,
    pub verb: Verb,
    pub argument: Argument,
}
