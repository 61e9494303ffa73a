// Two kinds side by side.
ghost use Rattle.kinds.specs.Rules.{pair};
ghost use Rattle.kinds.specs.RuleLaws.{pair_laws};

use crate::kind::Kind;
use crate::operation::{Argument, Verb};

// Part 0 is part 0 of `first`, and a part `p` above 0 is part `p - 1` of `second`.
#[derive(Clone, Copy)]
pub struct Pair<A, B> {
    pub first: A,
    pub second: B,
}

// Each operation touches its own part only, so the laws follow from those of the two.
// Each function picks one of the two by itself, since their types differ: no value stands for both.
impl<A: Kind, B: Kind> Kind for Pair<A, B> {
    ghost Meaning = { A.Kind.Meaning × B.Kind.Meaning };

    ghost meaning = { λ x. (A.Kind.meaning x.first, B.Kind.meaning x.second) };

    ghost model = { pair A.Kind.model B.Kind.model };

    ghost laws = { pair_laws A.Kind.laws B.Kind.laws };

    fn takes(part: u8, verb: Verb, argument: Argument) -> bool {
        if part == 0 {
            A::takes(0, verb, argument)
        } else {
            B::takes(part - 1, verb, argument)
        }
    }

    fn splits(part: u8, verb: Verb) -> bool {
        if part == 0 {
            A::splits(0, verb)
        } else {
            B::splits(part - 1, verb)
        }
    }

    fn shows(part: u8, number: u8) -> bool {
        if part == 0 {
            A::shows(0, number)
        } else {
            B::shows(part - 1, number)
        }
    }

    fn shown(&self, part: u8, number: u8) -> i64 {
        if part == 0 {
            self.first.shown(0, number)
        } else {
            self.second.shown(part - 1, number)
        }
    }

    fn apply(&mut self, part: u8, verb: Verb, argument: Argument) {
        if part == 0 {
            self.first.apply(0, verb, argument);
        } else {
            self.second.apply(part - 1, verb, argument);
        }
    }

    fn freshen(&mut self, part: u8, verb: Verb) {
        if part == 0 {
            self.first.freshen(0, verb);
        } else {
            self.second.freshen(part - 1, verb);
        }
    }

    fn merge(&mut self, part: u8, verb: Verb, shard: &Pair<A, B>) {
        if part == 0 {
            self.first.merge(0, verb, &shard.first);
        } else {
            self.second.merge(part - 1, verb, &shard.second);
        }
    }
}
