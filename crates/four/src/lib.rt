// The value of a record: a count, a lean, the last triple and the ten of the highest orders, as the parts 0 to 3.
#![tactic(auto)]

ghost use Rattle.std.specs.Prelude.{◌≡◌, [], pos, None};
ghost use Rattle.kinds.specs.Model.{Parts};
ghost use Rattle.triples.specs.Held.{held};
ghost use Rattle.four.specs.Fours.{four_model, Sound};

use kinds::pair::Pair;
use numbers::count::Count;
use numbers::lean::Lean;
use triples::last::Last;
use triples::ten::Ten;

#[cfg(test)]
mod tests;

// The four kinds side by side.
pub type Four = Pair<Count, Pair<Lean, Pair<Last, Ten>>>;

// The value of a record that no operation has changed yet: 0, 0, empty and empty.
pub fn start() -> Four
    ensures count { result.first.value ≡ 0 }
    ensures lean { result.second.first.value ≡ pos 0 }
    ensures last { result.second.second.first.triple ≡ None }
    ensures ten { held result.second.second.second ≡ [] }
{
    Pair {
        first: Count::new(),
        second: Pair {
            first: Lean::new(),
            second: Pair {
                first: Last::new(),
                second: Ten::new(),
            },
        },
    }
}

// How many parts a value has. Each of the four kinds has one part, and they and their pairs keep the laws.
#[tactic(auto, using(crate::proofs::FourSound::sound))]
pub fn parts() -> u8
    ensures count { Parts result four_model }
    ensures sound { Sound }
{
    4
}
