// The engine that a session has open.
ghost use Rattle.std.specs.Prelude.{◌≡◌, is_ok};
ghost use Rattle.refusals.specs.Codes.{coded};
ghost use Rattle.solo.specs.View.{view, commit_of};
ghost use Rattle.replies.specs.Replies.{told_turn, told_number};
ghost use Rattle.desk.specs.Commands.{RunsText, number_told};
ghost use Rattle.desk.specs.Engines.{opened, opened_as};
ghost use Rattle.desk.specs.Turns.{shown_told};

use four::Four;
use kinds::kind::Kind;
use numbers::count::Count;
use refusals::Refusal;
use script::{KindName, Opening, Query};
use solo::solo::{Committed, Solo};
use std::alloc::Global;

// An engine of either kind. Clauses see it by `opened`, since an enum can have no model. Its calls go by cases: a `dyn` engine would be made here and handed out, which the gate refuses.
#[derive(Drop)]
pub enum Engine {
    Counts(Solo<Count>),
    Fours(Solo<Four>),
}

impl Engine {
    // An engine of a kind with its values at their start.
    #[tactic(auto, using(crate::proofs::Starts::opened_count))]
    pub fn open(heap: Global, opening: Opening) -> Result<Engine, Refusal>
        ensures { coded opened result ≡ opened_as opening.figures.workers opening.figures.keys opening.figures.first opening.kind (is_ok result) }
    {
        match opening.kind {
            KindName::Count => {
                let solo = Solo::open(heap, opening.figures, Count::new())?;
                Ok(Engine::Counts(solo))
            }
            KindName::Four => {
                let solo = Solo::open(heap, opening.figures, four::start())?;
                Ok(Engine::Fours(solo))
            }
        }
    }

    // Runs the transaction that the text says.
    pub fn run(&mut self, worker: u64, text: &[u8]) -> Result<Committed, Refusal>
        ensures { RunsText (opened self.old) worker text.now (told_turn (coded commit_of result)) (opened self.new) }
    {
        match self {
            Engine::Counts(solo) => solo.run(worker, text),
            Engine::Fours(solo) => solo.run(worker, text),
        }
    }

    // The number that is shown, if there is one.
    pub fn shown(&self, asked: Query) -> Option<i64>
        ensures { told_number result ≡ number_told (opened self.now) asked.key asked.part asked.number }
    {
        match self {
            Engine::Counts(solo) => shown(solo, asked),
            Engine::Fours(solo) => shown(solo, asked),
        }
    }
}

// A number that an engine of any kind shows. A part or a number of more than 8 bits does not exist.
fn shown<K: Kind>(solo: &Solo<K>, asked: Query) -> Option<i64>
    ensures { told_number result ≡ shown_told K.Kind.model (view K.Kind.meaning solo.now) asked.key asked.part asked.number }
{
    let part = u8::try_from(asked.part).ok()?;
    let number = u8::try_from(asked.number).ok()?;
    solo.shown(asked.key, part, number)
}
