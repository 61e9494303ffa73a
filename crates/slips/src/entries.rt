// The entries of one transaction, at most sixteen, in the value itself: reading a text takes no memory.
ghost use Rattle.std.specs.Prelude.{◌≡◌, ◌<◌, ◌≤◌, [], ◌∷◌, ◌++◌, length, take};

use crate::entry::Entry;

// The most entries of a transaction.
pub const MOST: usize = 16;

// The first `len` of the items are the entries.
// They are copied as other small values are, so an array stands here beside its length: an `ArrayVec` is no `Copy`.
#[derive(Clone, Copy)]
pub struct Entries {
    items: [Entry; MOST],
    len: usize,
    ghost long: { length items ≡ 16 },
    ghost few: { len ≤ 16 },
}

impl Entries {
    // No entries.
    pub fn new() -> Entries
        ensures { take result.len result.items ≡ [] }
    {
        let blank = Entry::default();
        Entries {
            items: [blank; MOST],
            len: 0,
        }
    }

    // The entries in their order.
    pub fn as_slice(&self) -> &[Entry]
        ensures { result.now ≡ take self.now.len self.now.items }
    {
        &self.items[0..self.len]
    }

    // How many entries there are.
    pub fn len(&self) -> usize
        ensures { result ≡ length (take self.now.len self.now.items) }
    {
        self.as_slice().len()
    }

    // Puts an entry behind the others, where there is room for it.
    pub(crate) fn push(&mut self, entry: Entry)
        requires { length (take self.old.len self.old.items) < 16 }
        ensures { take self.new.len self.new.items ≡ take self.old.len self.old.items ++ (entry ∷ []) }
    {
        self.items[self.len] = entry;
        self.len += 1;
    }
}
