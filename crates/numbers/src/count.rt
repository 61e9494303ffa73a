// The kind of counts.
ghost use Rattle.std.specs.Prelude.{◌≡◌, ◌^◌, ◌<◌};
ghost use Rattle.numbers.specs.Counts.{Amount, rules as count_rules, show as count_show};
ghost use Rattle.numbers.specs.CountLaws.{lawful as count_lawful};

use kinds::operation::{Argument, Verb};
use kinds::part::Part;

// A number from 0 that stops at the largest `i64`.
#[derive(Clone, Copy)]
pub struct Count {
    value: u64,
    ghost small: { value < 2 ^ 63 },
}

// The largest count. A constant may call no function, so it is cast; the check proves that the cast loses nothing.
const MOST: u64 = i64::MAX as u64;

impl Count {
    // Nothing counted yet.
    pub fn new() -> Count
        ensures { result.value ≡ 0 }
    {
        Count { value: 0 }
    }
}

// `put`, `add` and `max` are taken with numbers from 0; `add` and `max` split.
#[tactic(auto, using(crate::specs::Counts::amount_is))]
impl Part for Count {
    ghost Meaning = { Amount };

    ghost meaning = { λ c. record { value = c.value; small = c.small } };

    ghost rules = { count_rules };

    ghost NUMBERS = { 1 };

    ghost show = { count_show };

    ghost lawful = { count_lawful };

    const NUMBERS: u8 = 1;

    fn takes(verb: Verb, argument: Argument) -> bool {
        matches!(verb, Verb::Put | Verb::Add | Verb::Max) && argument.number >= 0
    }

    fn splits(verb: Verb) -> bool {
        matches!(verb, Verb::Add | Verb::Max)
    }

    fn shown(&self, _number: u8) -> i64 {
        self.value.cast_signed()
    }

    // `add` and `max` stand here and in `merge`: by merging a `Count` of the argument's number, tried three ways, the proof didn't close.
    fn apply(&mut self, verb: Verb, argument: Argument) {
        let number = u64::try_from(argument.number).unwrap_or(0);
        self.value = match verb {
            Verb::Put => number,
            Verb::Add => (self.value + number).min(MOST),
            Verb::Max => self.value.max(number),
            _ => self.value,
        };
    }

    fn freshen(&mut self, verb: Verb) {
        self.value = match verb {
            Verb::Add | Verb::Max => 0,
            _ => self.value,
        };
    }

    fn merge(&mut self, verb: Verb, shard: &Count) {
        self.value = match verb {
            Verb::Add => (self.value + shard.value).min(MOST),
            Verb::Max => self.value.max(shard.value),
            _ => self.value,
        };
    }
}
