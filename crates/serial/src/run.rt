// The run of one transaction, entry by entry, directly on the values.
ghost use Rattle.std.specs.Prelude.{◌≡◌, ◌<◌, not, ◌++◌, map, length};
ghost use Rattle.slips.specs.Listed.{entries_of};
ghost use Rattle.serial.specs.Alone.{RunsAlone, tells, falls_short};
ghost use Rattle.serial.specs.Answers.{answers_of, listed};
ghost use Rattle.serial.specs.Places.{modify};
ghost use Rattle.serial.specs.Serial.{reads, after, serial};

use crate::readings::{Answers, Readings};
use kinds::kind::Kind;
use kinds::operation::{Argument, Verb};
use slips::entries::Entries;
use slips::entry::{Action, Entry};

// Runs the entries in order for one worker. The first `need` below its bound skips the rest.
// The worker stands beside the entries: calls on one entry take it too, and a struct of both would be taken apart in each.
// Each clause sees the values through their meanings: the `Value` of a model around them can't name what `K` means.
pub fn run_alone<K: Kind>(values: &mut [K], worker: u8, entries: &Entries) -> Readings
    ensures { record { values = map K.Kind.meaning values.new; answers = answers_of result; skipped = result.skipped } ≡ serial K.Kind.model worker 0 (entries_of entries.now) (map K.Kind.meaning values.old) }
{
    let mut answers = Answers::new();
    let all = entries.as_slice();
    for (i, entry) in all.iter().enumerate() {
        if !run_entry(values, worker, *entry, &mut answers) {
            return Readings {
                skipped: Some(i),
                answers,
            };
        }
    }
    Readings {
        skipped: None,
        answers,
    }
}

// What a run alone comes to: the entries before the `need` that skipped did all that they say, and nothing else was done.
pub fn promise<K: Kind>()
    ensures { RunsAlone K.Kind.model }
{}

// Runs one entry, and says whether the next one is to be run.
fn run_entry<K: Kind>(values: &mut [K], worker: u8, entry: Entry, answers: &mut Answers) -> bool
    requires { length (listed answers.old) < 16 }
    ensures values { map K.Kind.meaning values.new ≡ after K.Kind.model worker entry entry.action (map K.Kind.meaning values.old) }
    ensures answers { listed answers.new ≡ listed answers.old ++ tells K.Kind.model entry entry.action (map K.Kind.meaning values.old) }
    ensures goes_on { not result ≡ falls_short K.Kind.model entry entry.action (map K.Kind.meaning values.old) }
{
    match entry.action {
        Action::Show { number } => {
            answers.push(read(values, entry, number));
            true
        }
        Action::Need { number, bound } => read(values, entry, number) >= bound,
        Action::Change { verb, number, mark } => {
            let argument = Argument {
                number,
                worker,
                mark,
            };
            change(values, entry, verb, argument);
            true
        }
    }
}

// The number that an entry reads, which is 0 at a key outside the values.
fn read<K: Kind>(values: &[K], entry: Entry, number: u8) -> i64
    ensures { result ≡ reads K.Kind.model entry number (map K.Kind.meaning values.now) }
{
    values
        .get(usize::from(entry.key))
        .map_or(0, |value| value.shown(entry.part, number))
}

// Applies an entry's operation, which does nothing at a key outside the values.
fn change<K: Kind>(values: &mut [K], entry: Entry, verb: Verb, argument: Argument)
    ensures { map K.Kind.meaning values.new ≡ modify entry.key ((K.Kind.model.rule entry.part verb).apply argument) (map K.Kind.meaning values.old) }
{
    // By an index: of a slice that `get_mut` has lent from, the prover knows no element afterwards.
    let key = usize::from(entry.key);
    if key < values.len() {
        values[key].apply(entry.part, verb, argument);
    }
}
