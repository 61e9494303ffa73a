// The kind of leans.
ghost use Rattle.std.specs.Prelude.{◌≡◌, ◌^◌, ◌<◌, pos};
ghost use Rattle.std.specs.Int.Signed.{mag};
ghost use Rattle.numbers.specs.Leans.{Long, rules as lean_rules, show as lean_show};
ghost use Rattle.numbers.specs.LeanLaws.{lawful as lean_lawful};

use kinds::operation::{Argument, Verb};
use kinds::part::Part;

// A signed number of 64 bits, to either side of upright.
#[derive(Clone, Copy)]
pub struct Lean {
    value: i64,
    ghost fits: { mag value < 2 ^ 63 },
}

impl Lean {
    // Upright.
    pub fn new() -> Lean
        ensures { result.value ≡ pos 0 }
    {
        Lean { value: 0 }
    }
}

// `put`, `add`, which wraps, `max` and `min` are taken with any number; all but `put` split.
#[tactic(auto, using(crate::specs::Leans::long_is, std::proofs::lemmas::Int::wraps))]
impl Part for Lean {
    ghost Meaning = { Long };

    ghost meaning = { λ x. record { value = x.value; fits = x.fits } };

    ghost rules = { lean_rules };

    ghost NUMBERS = { 1 };

    ghost show = { lean_show };

    ghost lawful = { lean_lawful };

    const NUMBERS: u8 = 1;

    fn takes(verb: Verb, _argument: Argument) -> bool {
        matches!(verb, Verb::Put | Verb::Add | Verb::Max | Verb::Min)
    }

    fn splits(verb: Verb) -> bool {
        matches!(verb, Verb::Add | Verb::Max | Verb::Min)
    }

    fn shown(&self, _number: u8) -> i64 {
        self.value
    }

    // All but `put` stand here and in `merge`, as in `Count`: by merging a `Lean` of the argument's number the proof didn't close.
    fn apply(&mut self, verb: Verb, argument: Argument) {
        self.value = match verb {
            Verb::Put => argument.number,
            Verb::Add => self.value.wrapping_add(argument.number),
            Verb::Max => self.value.max(argument.number),
            Verb::Min => self.value.min(argument.number),
            _ => self.value,
        };
    }

    fn freshen(&mut self, verb: Verb) {
        self.value = match verb {
            Verb::Add => 0,
            Verb::Max => i64::MIN,
            Verb::Min => i64::MAX,
            _ => self.value,
        };
    }

    fn merge(&mut self, verb: Verb, shard: &Lean) {
        self.value = match verb {
            Verb::Add => self.value.wrapping_add(shard.value),
            Verb::Max => self.value.max(shard.value),
            Verb::Min => self.value.min(shard.value),
            _ => self.value,
        };
    }
}
