// The kind of the ten triples of the highest orders.
ghost use Rattle.std.specs.Prelude.{◌≡◌, ◌≤◌, T, length, take};
ghost use Rattle.triples.specs.Triples.{by_order};
ghost use Rattle.triples.specs.Falling.{falling};
ghost use Rattle.triples.specs.Tens.{Tops, tops, topped, rules as ten_rules, show as ten_show};
ghost use Rattle.triples.specs.TenLaws.{lawful as ten_lawful};

use crate::triple::Triple;
use kinds::operation::{Argument, Verb};
use kinds::part::Part;
use std::cmp::Ordering;
use std::mem;

// The first `len` of `triples` count: their orders fall, so no two are the same.
// A kind's values are copied with no memory and no call that can fail, so an array stands here beside its length: an `ArrayVec` is no `Copy`.
// It has no `impl Model`: that of a `Copy` type gives its fields back, and the triples that count do not say what stands behind them.
#[derive(Clone, Copy)]
pub struct Ten {
    triples: [Triple; 10],
    len: usize,
    ghost long: { length triples ≡ 10 },
    ghost few: { len ≤ 10 },
    ghost falls: { T (falling by_order (take len triples)) },
}

// What stands where no triple counts.
const BLANK: Triple = Triple {
    order: 0,
    worker: 0,
    mark: 0,
};

impl Ten {
    ghost use Rattle.std.specs.Prelude.{◌≡◌, List, [], ◌∷◌, ◌++◌, fold, slice_index_or};
    ghost use Rattle.triples.specs.Triples.{zero};
    ghost use Rattle.triples.specs.declared.triple.Triple.{Triple as Item};
    ghost use Rattle.triples.specs.Best.{Holds};
    ghost use Rattle.triples.specs.Tens.{topped};
    ghost use Rattle.triples.specs.Held.{held};

    // Nothing has come yet.
    #[tactic(auto, using(crate::proofs::TenHolds::holds_none))]
    pub fn new() -> Ten
        ensures items { held result ≡ [] }
        ensures holds { Holds [] (held result) }
    {
        Ten {
            triples: [BLANK; 10],
            len: 0,
        }
    }

    // These and `new`, of which the ten of the highest orders stay: if these are the ten of all that has been seen,
    // the result has the ten of that and `new`.
    pub fn with(self, new: Triple) -> Ten
        ensures items { held result ≡ topped (held self) new }
        ensures holds { (seen : List Item) → Holds seen (held self) → Holds (new ∷ seen) (held result) }
    {
        let mut triples = self.triples;
        let len = insert(&mut triples, self.len, new);
        Ten { triples, len }
    }

    // These and those of `shard`, of which the ten of the highest orders stay: those of all that either has seen.
    #[tactic(auto, using(std::proofs::lemmas::List::Sums::fold_more))]
    pub fn with_all(self, shard: &Ten) -> Ten
        ensures items { held result ≡ fold topped (held self) (held shard.now) }
        ensures holds { (seen aside : List Item) → Holds seen (held self) → Holds aside (held shard.now) → Holds (aside ++ seen) (held result) }
    {
        // A `fold` leaves both clauses open.
        let mut merged = self;
        for triple in shard.held() {
            merged = merged.with(*triple);
        }
        merged
    }

    // The triple at `place`, and zeros past the last.
    fn at(&self, place: usize) -> Triple
        ensures { result ≡ slice_index_or (held self.now) place zero }
    {
        self.held().get(place).copied().unwrap_or(BLANK)
    }

    // The triples that count.
    fn held(&self) -> &[Triple]
        ensures { result.now ≡ held self.now }
    {
        &self.triples[..self.len]
    }
}

// `top` is taken with any argument, and splits.
#[tactic(auto, using(crate::specs::Tens::tops_is, crate::specs::TenFolds::folded_triples))]
impl Part for Ten {
    ghost Meaning = { Tops };

    ghost meaning = { λ x. tops x.len x.triples x.few x.falls };

    ghost rules = { ten_rules };

    ghost NUMBERS = { 31 };

    ghost show = { ten_show };

    ghost lawful = { ten_lawful };

    const NUMBERS: u8 = 31;

    // Taken where it splits, as in `Last`; a default of the trait would have to hold of every part.
    fn takes(verb: Verb, _argument: Argument) -> bool {
        Ten::splits(verb)
    }

    fn splits(verb: Verb) -> bool {
        verb == Verb::Top
    }

    fn shown(&self, number: u8) -> i64 {
        if number == 0 {
            // There is no `From` of a `usize` here; the check proves that the cast loses nothing.
            return self.len as i64;
        }
        let triple = self.at(usize::from((number - 1) / 3));
        triple.number((number - 1) % 3)
    }

    fn apply(&mut self, verb: Verb, argument: Argument) {
        if verb == Verb::Top {
            *self = self.with(Triple::from(argument));
        }
    }

    fn freshen(&mut self, verb: Verb) {
        if verb == Verb::Top {
            *self = Ten::new();
        }
    }

    fn merge(&mut self, verb: Verb, shard: &Ten) {
        if verb == Verb::Top {
            *self = self.with_all(shard);
        }
    }
}

// Puts `new` into its place among the first `len`; of one order the greater stays, and beyond ten the lowest leaves.
// Returns how many there are then. It takes a `Ten`'s fields: the orders fall again only once `new` has its place.
// The insertions of the library's vectors push none out at the end, so one pass finds the place and moves the rest.
fn insert(triples: &mut [Triple; 10], len: usize, new: Triple) -> usize
    requires few { len ≤ 10 }
    requires falls { T (falling by_order (take len triples.old)) }
    ensures few { result ≤ 10 }
    ensures placed { take result triples.new ≡ topped (take len triples.old) new }
{
    let mut carried = new;
    for here in triples[..len].iter_mut() {
        match carried.order.cmp(&here.order) {
            Ordering::Less => {}
            Ordering::Equal => {
                *here = carried.max(*here);
                return len;
            }
            Ordering::Greater => mem::swap(here, &mut carried),
        }
    }
    if len < 10 {
        triples[len] = carried;
        len + 1
    } else {
        len
    }
}
