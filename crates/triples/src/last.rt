// The kind of the last triple.
ghost use Rattle.std.specs.Prelude.{◌≡◌, None};
ghost use Rattle.triples.specs.Lasts.{Latest, rules as last_rules, show as last_show};
ghost use Rattle.triples.specs.LastLaws.{lawful as last_lawful};

use crate::triple::Triple;
use kinds::operation::{Argument, Verb};
use kinds::part::Part;

// The greatest triple so far, if there is one.
#[derive(Clone, Copy)]
pub struct Last {
    triple: Option<Triple>,
}

impl Last {
    // Nothing has come yet.
    pub fn new() -> Last
        ensures { result.triple ≡ None }
    {
        Last { triple: None }
    }
}

// `last` is taken with any argument, and splits.
impl Part for Last {
    ghost Meaning = { Latest };

    ghost meaning = { λ x. x.triple };

    ghost rules = { last_rules };

    ghost NUMBERS = { 4 };

    ghost show = { last_show };

    ghost lawful = { last_lawful };

    const NUMBERS: u8 = 4;

    // Taken where it splits, as in `Ten`; a default of the trait would have to hold of every part.
    fn takes(verb: Verb, _argument: Argument) -> bool {
        Last::splits(verb)
    }

    fn splits(verb: Verb) -> bool {
        verb == Verb::Last
    }

    fn shown(&self, number: u8) -> i64 {
        match (self.triple, number) {
            (Some(_), 0) => 1,
            (Some(triple), 1..=3) => triple.number(number - 1),
            _ => 0,
        }
    }

    fn apply(&mut self, verb: Verb, argument: Argument) {
        if verb == Verb::Last {
            self.triple = self.triple.max(Some(Triple::from(argument)));
        }
    }

    fn freshen(&mut self, verb: Verb) {
        if verb == Verb::Last {
            self.triple = None;
        }
    }

    fn merge(&mut self, verb: Verb, shard: &Last) {
        if verb == Verb::Last {
            self.triple = self.triple.max(shard.triple);
        }
    }
}
