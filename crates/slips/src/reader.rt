// Reads the text of a transaction, and takes its canonical form alone.
ghost use Rattle.std.specs.Prelude.{◌≡◌, ℕ, List, Result};
ghost use Rattle.slips.specs.Reads.{endings, told, ReadAs};

use crate::entries::{Entries, MOST};
use crate::entry::Entry;
use crate::fault::Fault;
use crate::line::entry_at;

// The most bytes of a text.
const LONGEST: usize = 1024;

// The entries that the text is the canonical text of, or why there are none.
pub fn read(text: &[u8]) -> Result<Entries, Fault>
    ensures reads { ReadAs text.now (told result) }
    ensures only { (q : Result (List Entry) (List ℕ)) → ReadAs text.now q → q ≡ told result }
{
    if text.is_empty() || text.len() > LONGEST || count_endings(text) > MOST {
        return Err(Fault::Size);
    }
    let mut entries = Entries::new();
    let mut at = 0;
    // A loop over places: where an entry ends says where the next one begins.
    while at < text.len() {
        match entry_at(text, at) {
            Ok((entry, next)) => {
                entries.push(entry);
                at = next;
            }
            Err(byte) => {
                let entry = entries.len();
                return Err(Fault::Grammar { entry, byte });
            }
        }
    }
    Ok(entries)
}

// How many ending bytes the text has.
fn count_endings(text: &[u8]) -> usize
    ensures { result ≡ endings text.now }
{
    text.iter().filter(|byte| **byte == b'\n').count()
}
