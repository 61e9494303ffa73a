// The desk that serves a session: the engine that is open, and how many commands it had.
ghost use Rattle.std.specs.Prelude.{◌≡◌, false};
ghost use Rattle.desk.specs.Commands.{Replies, Opens, Runs, changes, number_told};
ghost use Rattle.desk.specs.Engines.{engine_of, closed};
ghost use Rattle.replies.specs.Replies.{told};
ghost use Rattle.replies.specs.Totals.{nil, counted, Fair};

use crate::engine::Engine;
use replies::reply::{Failure, Reply};
use replies::totals::Totals;
use script::{Command, Opening, Query, parse, unescape};
use std::alloc::Global;

// The engine that is open, if one is, and the totals so far.
#[derive(Drop)]
pub struct Desk {
    engine: Option<Engine>,
    totals: Totals,
    ghost fair: { Fair totals },
}

impl Desk {
    // No engine is open, and no command was given.
    pub fn new() -> Desk
        ensures engine { engine_of result.engine ≡ closed }
        ensures totals { result.totals ≡ nil }
    {
        Desk {
            engine: None,
            totals: Totals::new(),
        }
    }

    // Does what a command line asks for, and counts it.
    #[tactic(auto, using(crate::proofs::Kept::kept))]
    pub fn answer(&mut self, heap: Global, line: &[u8]) -> Result<Reply, Failure>
        ensures replies { Replies (engine_of self.old.engine) line.now (told result) (engine_of self.new.engine) }
        ensures kept { changes (told result) ≡ false → engine_of self.new.engine ≡ engine_of self.old.engine }
        ensures totals { self.new.totals ≡ counted (told result) self.old.totals }
    {
        let answer = reply(&mut self.engine, heap, line);
        let totals = &mut self.totals;
        totals.count(&answer);
        answer
    }

    // The totals so far.
    pub fn totals(&self) -> Totals
        ensures totals { result ≡ self.now.totals }
        ensures fair { Fair result }
    {
        self.totals
    }
}

// Does what a command line asks for, with the engine that is open, if one is.
pub fn reply(engine: &mut Option<Engine>, heap: Global, line: &[u8]) -> Result<Reply, Failure>
    ensures { Replies (engine_of engine.old) line.now (told result) (engine_of engine.new) }
{
    match parse(line) {
        None => Err(Failure::NotUnderstood),
        Some(Command::Open(opening)) => open(engine, heap, opening),
        Some(Command::Run { worker, text }) => run(engine, heap, worker, text),
        Some(Command::Tally(asked)) => tally(engine, asked),
    }
}

// Opens an engine, unless one is open.
fn open(engine: &mut Option<Engine>, heap: Global, opening: Opening) -> Result<Reply, Failure>
    ensures { Opens (engine_of engine.old) opening.figures.workers opening.figures.keys opening.figures.first opening.kind (told result) (engine_of engine.new) }
{
    if engine.is_some() {
        return Err(Failure::EngineOpen);
    }
    *engine = Some(Engine::open(heap, opening)?);
    Ok(Reply::Joined)
}

// Runs the transaction whose text is written so; the worker is handed on beside another text, the one without escapes.
fn run(
    engine: &mut Option<Engine>,
    heap: Global,
    worker: u64,
    written: &[u8],
) -> Result<Reply, Failure>
    ensures { Runs (engine_of engine.old) worker written.now (told result) (engine_of engine.new) }
{
    let text = unescape(heap, written)?;
    let engine = engine.as_mut().ok_or(Failure::NoEngine)?;
    Ok(Reply::Committed(engine.run(worker, text.as_slice())?))
}

// The number that is shown.
fn tally(engine: &Option<Engine>, asked: Query) -> Result<Reply, Failure>
    ensures { told result ≡ number_told (engine_of engine.now) asked.key asked.part asked.number }
{
    let engine = engine.as_ref().ok_or(Failure::NoEngine)?;
    let number = engine.shown(asked).ok_or(Failure::NoSuchNumber)?;
    Ok(Reply::Number(number))
}
