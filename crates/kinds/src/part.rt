// Kinds whose values have one part.
ghost use Rattle.std.specs.Prelude.{◌≡◌, ℕ, ℤ};
ghost use Rattle.kinds.specs.Model.{Rule, Lawful};
ghost use Rattle.kinds.specs.Rules.{single};
ghost use Rattle.kinds.specs.RuleLaws.{single_laws};
ghost use Rattle.kinds.specs.declared.operation.Verb.{Verb as TheVerb};

use crate::kind::Kind;
use crate::operation::{Argument, Verb};

// What each verb does to the one part, and the numbers that it shows.
pub trait Part: Copy {
    ghost Meaning: { Type 0 };

    ghost meaning: { Self → Meaning };

    ghost rules: { TheVerb → Rule Meaning };

    ghost NUMBERS: { ℕ };

    ghost show: { ℕ → Meaning → ℤ };

    // How many numbers the part shows: those from 0 on.
    const NUMBERS: u8;

    // Whether the part takes the operation.
    fn takes(verb: Verb, argument: Argument) -> bool
        ensures { result ≡ (rules verb).takes argument };

    // Whether operations of this verb may be collected in a shard.
    fn splits(verb: Verb) -> bool
        ensures { result ≡ (rules verb).splits };

    // The number that the part shows.
    fn shown(&self, number: u8) -> i64
        ensures { result ≡ show number (meaning self.now) };

    // Does the operation.
    fn apply(&mut self, verb: Verb, argument: Argument)
        ensures { meaning self.new ≡ (rules verb).apply argument (meaning self.old) };

    // Makes the part an empty shard, to collect operations of this verb in.
    fn freshen(&mut self, verb: Verb)
        ensures { meaning self.new ≡ (rules verb).fresh (meaning self.old) };

    // Takes in what was collected in a shard.
    fn merge(&mut self, verb: Verb, shard: &Self)
        ensures { meaning self.new ≡ (rules verb).merge (meaning shard.now) (meaning self.old) };

    // Operations that split can be collected in a shard and merged later, in any order.
    ghost lawful: { (verb : TheVerb) → Lawful (rules verb) };
}

// The one part is part 0: no other is taken, split or shown. What does not depend on that leaves the part's number alone.
impl<P: Part> Kind for P {
    ghost Meaning = { P.Part.Meaning };

    ghost meaning = { P.Part.meaning };

    ghost model = { single P.Part.rules P.Part.NUMBERS P.Part.show };

    ghost laws = { single_laws P.Part.rules P.Part.NUMBERS P.Part.show P.Part.lawful };

    fn takes(part: u8, verb: Verb, argument: Argument) -> bool {
        part == 0 && P::takes(verb, argument)
    }

    fn splits(part: u8, verb: Verb) -> bool {
        part == 0 && P::splits(verb)
    }

    fn shows(part: u8, number: u8) -> bool {
        part == 0 && number < P::NUMBERS
    }

    fn shown(&self, _part: u8, number: u8) -> i64 {
        Part::shown(self, number)
    }

    fn apply(&mut self, _part: u8, verb: Verb, argument: Argument) {
        Part::apply(self, verb, argument);
    }

    fn freshen(&mut self, _part: u8, verb: Verb) {
        Part::freshen(self, verb);
    }

    fn merge(&mut self, _part: u8, verb: Verb, shard: &P) {
        Part::merge(self, verb, shard);
    }
}
