// What is tested of a transaction's entries before any of them runs.
ghost use Rattle.std.specs.Prelude.{◌≡◌, position};
ghost use Rattle.refusals.specs.Codes.{coded};
ghost use Rattle.solo.specs.Rules.{late, no_record, not_taken, refuse_or, takes as taken_by};

use kinds::kind::Kind;
use kinds::operation::Argument;
use refusals::Refusal;
use slips::entry::{Action, Entry};

// Refuses the first entry whose key has no record, and if each has one, the first that the kind does not take.
// The worker stands beside the entries, as in `run_alone`.
pub(crate) fn check_entries<K: Kind>(
    keys: usize,
    worker: u8,
    entries: &[Entry],
) -> Result<(), Refusal>
    ensures { coded (λ u. u) result ≡ refuse_or (late K.Kind.model keys worker entries.now) tt }
{
    if let Some(entry) = find_no_record(keys, entries) {
        return Err(Refusal::NoKey { entry });
    }
    if let Some(entry) = find_not_taken::<K>(worker, entries) {
        return Err(Refusal::NotTaken { entry });
    }
    Ok(())
}

// The number of the first entry whose key has no record.
fn find_no_record(keys: usize, entries: &[Entry]) -> Option<usize>
    ensures { result ≡ position (no_record keys) entries.now }
{
    entries
        .iter()
        .position(|entry| usize::from(entry.key) >= keys)
}

// The number of the first entry that the kind does not take.
fn find_not_taken<K: Kind>(worker: u8, entries: &[Entry]) -> Option<usize>
    ensures { result ≡ position (not_taken K.Kind.model worker) entries.now }
{
    entries.iter().position(|entry| !takes::<K>(worker, *entry))
}

// Whether the kind takes the entry's operation, or has the number that the entry reads.
fn takes<K: Kind>(worker: u8, entry: Entry) -> bool
    ensures { result ≡ taken_by K.Kind.model worker entry entry.action }
{
    match entry.action {
        Action::Show { number } | Action::Need { number, .. } => K::shows(entry.part, number),
        Action::Change { verb, number, mark } => {
            K::takes(
                entry.part,
                verb,
                Argument {
                    number,
                    worker,
                    mark,
                },
            )
        }
    }
}
