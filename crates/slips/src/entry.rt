// What a transaction says, entry by entry.
ghost use Rattle.std.specs.Prelude.{◌≡◌};
ghost use Rattle.slips.specs.Listed.{blank};

use kinds::operation::Verb;

// What an entry does with its part of a record: shows a number of it, needs that number to be at least a bound, or changes it.
// A change by a verb that takes no mark has the mark 0.
#[derive(Clone, Copy)]
pub enum Action {
    Show { number: u8 },
    Need { number: u8, bound: i64 },
    Change { verb: Verb, number: i64, mark: u32 },
}

// One entry: which part of which record, and what to do with it.
#[derive(Clone, Copy)]
pub struct Entry {
    pub key: u16,
    pub part: u8,
    pub action: Action,
}

// What stands behind the entries that a transaction has.
impl Default for Entry {
    ghost is_default = { λ entry. entry ≡ blank };

    fn default() -> Self {
        Entry {
            key: 0,
            part: 0,
            action: Action::Show { number: 0 },
        }
    }
}
