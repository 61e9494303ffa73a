// The engine: a value for each key, on which transactions run one at a time, each at once and at the next place.
ghost use Rattle.std.specs.Prelude.{◌≡◌, ◌-◌, ◌^◌, map, replicate, is_ok, IfOk, Ok, ◌≢◌};
ghost use Rattle.slips.specs.Listed.{entries_of};
ghost use Rattle.refusals.specs.Codes.{coded};
ghost use Rattle.solo.specs.History.{WholeRuns};
ghost use Rattle.solo.specs.Rules.{commits, early, good_figures, opening, refuse_or, shown_at, RunAs, Turn};
ghost use Rattle.solo.specs.View.{commit_of, view};

use crate::checks::check_entries;
use kinds::kind::Kind;
use refusals::Refusal;
use serial::readings::Readings;
use serial::run::run_alone;
use slips::entries::Entries;
use slips::read;
use std::alloc::{AllocError, Global};

// What a committed transaction is told: its place in the serial order, and what it read.
#[derive(Clone, Copy)]
pub struct Committed {
    pub place: u64,
    pub readings: Readings,
}

// What an engine is opened with: how many workers and keys it has, and its first place.
#[derive(Clone, Copy)]
pub struct Figures {
    pub workers: u64,
    pub keys: u64,
    pub first: u64,
}

// The values, how many workers there are, and the last place that was given.
// Clauses see it by `view` at the meanings of `K`: the `Value` of an `impl Model` can't name a bound's members.
#[derive(Drop)]
pub struct Solo<K> {
    workers: u8,
    given: u64,
    values: Vec<K>,
}

impl Figures {
    // Whether an engine can be opened with them.
    pub fn are_good(self) -> bool
        ensures { result ≡ good_figures self.workers self.keys self.first }
    {
        (1..=8).contains(&self.workers) && (1..=1024).contains(&self.keys) && 1 <= self.first
    }
}

impl<K: Kind> Solo<K> {
    // An engine whose values are all `start`, one for each key.
    pub fn open(heap: Global, figures: Figures, start: K) -> Result<Solo<K>, Refusal>
        ensures { coded (view K.Kind.meaning) result ≡ opening figures.workers figures.keys figures.first (K.Kind.meaning start) (is_ok result) }
    {
        if !figures.are_good() {
            return Err(Refusal::Figures);
        }
        let values = fill(heap, figures.keys, start)?;
        // Good figures have no more than 8 workers: `u8::try_from` would want an answer for more than 255.
        Ok(Solo {
            workers: figures.workers as u8,
            given: figures.first - 1,
            values,
        })
    }

    // Runs the transaction that the text says, or refuses it and changes nothing: this turn, and no other, is what the rules allow.
    pub fn run(&mut self, worker: u64, text: &[u8]) -> Result<Committed, Refusal>
        ensures runs { RunAs K.Kind.model (view K.Kind.meaning self.old) worker text.now (record { state = view K.Kind.meaning self.new; answer = coded commit_of result }) }
        ensures only { (t : Turn K.Kind.Meaning) → RunAs K.Kind.model (view K.Kind.meaning self.old) worker text.now t → t ≡ record { state = view K.Kind.meaning self.new; answer = coded commit_of result } }
    {
        let worker = self.admit(worker)?;
        let entries = read(text)?;
        check_entries::<K>(self.values.len(), worker, entries.as_slice())?;
        Ok(self.commit(worker, &entries))
    }

    // A number that a part of a record shows, if there is such a record, part and number.
    // Part and number are of 8 bits, as a kind's calls take them; a script's are of 64, so this takes no struct of the script's.
    pub fn shown(&self, key: u64, part: u8, number: u8) -> Option<i64>
        ensures { result ≡ shown_at K.Kind.model (view K.Kind.meaning self.now) key part number }
    {
        if !K::shows(part, number) {
            return None;
        }
        let key = usize::try_from(key).ok()?;
        let value = self.values.get(key)?;
        Some(value.shown(part, number))
    }

    // Refuses a worker that there is not, and any worker once the last ticket was given.
    fn admit(&self, worker: u64) -> Result<u8, Refusal>
        ensures { coded (λ w. w) result ≡ refuse_or (early K.Kind.model (view K.Kind.meaning self.now) worker) worker }
    {
        let workers = self.workers;
        let worker = match u8::try_from(worker) {
            Ok(worker) if worker < workers => worker,
            _ => return Err(Refusal::NoWorker),
        };
        if self.given == u64::MAX {
            return Err(Refusal::TicketsOut);
        }
        Ok(worker)
    }

    // Runs the entries on the values, at the next place.
    fn commit(&mut self, worker: u8, entries: &Entries) -> Committed
        requires { self.old.given ≢ 2 ^ 64 - 1 }
        ensures { record { state = view K.Kind.meaning self.new; answer = Ok (commit_of result) } ≡ commits K.Kind.model (view K.Kind.meaning self.old) worker (entries_of entries.now) }
    {
        let readings = run_alone(&mut self.values, worker, entries);
        self.given += 1;
        Committed {
            place: self.given,
            readings,
        }
    }
}

// What the turns of an engine come to, whatever they are: the committed transactions run one after another by their places.
pub fn promise<K: Kind>()
    ensures { WholeRuns K.Kind.model }
{}

// As many values as there are keys, all the same. `vec!` would clone them, and of a clone it isn't known that it equals the value.
fn fill<K: Kind>(heap: Global, keys: u64, start: K) -> Result<Vec<K>, AllocError>
    ensures { IfOk result (λ v. map K.Kind.meaning v.items ≡ replicate keys (K.Kind.meaning start)) }
{
    (0..keys).map(|_| start).collect(heap)
}
