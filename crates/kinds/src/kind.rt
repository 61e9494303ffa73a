// The trait of the kinds of values.
ghost use Rattle.std.specs.Prelude.{◌≡◌};
ghost use Rattle.kinds.specs.Model.{Model, Laws};

use crate::operation::{Argument, Verb};

// Each value has a meaning, and a kind's functions go by meanings and arguments alone.
// What is taken, what splits and which numbers are shown depends on no value.
// The part and the verb go one by one, and not in an `Operation`: to split, to freshen and to merge there is no argument.
// So do the part and the number that it shows: a pair changes the part alone.
pub trait Kind: Copy {
    ghost Meaning: { Type 0 };

    ghost meaning: { Self → Meaning };

    ghost model: { Model Meaning };

    // Whether the part takes the operation.
    fn takes(part: u8, verb: Verb, argument: Argument) -> bool
        ensures { result ≡ (model.rule part verb).takes argument };

    // Whether operations of this verb may be collected in a shard.
    fn splits(part: u8, verb: Verb) -> bool
        ensures { result ≡ (model.rule part verb).splits };

    // Whether the part has a number to show under this one.
    fn shows(part: u8, number: u8) -> bool
        ensures { result ≡ model.shows part number };

    // The number that the part shows.
    fn shown(&self, part: u8, number: u8) -> i64
        ensures { result ≡ model.shown part number (meaning self.now) };

    // Does the operation.
    fn apply(&mut self, part: u8, verb: Verb, argument: Argument)
        ensures { meaning self.new ≡ (model.rule part verb).apply argument (meaning self.old) };

    // Makes the part an empty shard, to collect operations of this verb in.
    fn freshen(&mut self, part: u8, verb: Verb)
        ensures { meaning self.new ≡ (model.rule part verb).fresh (meaning self.old) };

    // Takes in what was collected in a shard.
    fn merge(&mut self, part: u8, verb: Verb, shard: &Self)
        ensures { meaning self.new ≡ (model.rule part verb).merge (meaning shard.now) (meaning self.old) };

    // Operations that split can be collected in a shard and merged later, in any order.
    ghost laws: { Laws model };
}
