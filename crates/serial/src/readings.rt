// What a run gave its owner, with no memory of its own.
ghost use Rattle.std.specs.Prelude.{◌≡◌, ◌≤◌, length};

use slips::entries::MOST;

// The answers of `show` entries in their order: the first `len` of the items. An entry gives one at most.
// They are copied as other small values are, so an array stands here beside its length: an `ArrayVec` is no `Copy`.
#[derive(Clone, Copy)]
pub(crate) struct Answers {
    items: [i64; MOST],
    len: usize,
    ghost long: { length items ≡ 16 },
    ghost few: { len ≤ 16 },
}

// The answers of a run, and the entry number of the `need` that skipped the rest.
// It has no `impl Model`: that of a `Copy` type gives its fields back, and the answers do not say what stands behind them.
#[derive(Clone, Copy)]
pub struct Readings {
    pub(crate) answers: Answers,
    pub(crate) skipped: Option<usize>,
}

impl Readings {
    ghost use Rattle.std.specs.Prelude.{◌≡◌};
    ghost use Rattle.serial.specs.Answers.{answers_of};

    // The answers in their order.
    pub fn answers(&self) -> &[i64]
        ensures { result.now ≡ answers_of self.now }
    {
        self.answers.as_slice()
    }

    // The entry number, from 0 on, of the `need` that skipped the rest.
    pub fn skipped(&self) -> Option<usize>
        ensures { result ≡ self.now.skipped }
    {
        self.skipped
    }
}

impl Answers {
    ghost use Rattle.std.specs.Prelude.{◌≡◌, ◌<◌, [], ◌∷◌, ◌++◌, length};
    ghost use Rattle.serial.specs.Answers.{listed};

    // Before the first entry.
    pub(crate) fn new() -> Answers
        ensures { listed result ≡ [] }
    {
        Answers {
            items: [0; MOST],
            len: 0,
        }
    }

    // The answers so far.
    pub(crate) fn as_slice(&self) -> &[i64]
        ensures { result.now ≡ listed self.now }
    {
        &self.items[0..self.len]
    }

    // One more answer.
    pub(crate) fn push(&mut self, answer: i64)
        requires { length (listed self.old) < 16 }
        ensures { listed self.new ≡ listed self.old ++ (answer ∷ []) }
    {
        self.items[self.len] = answer;
        self.len += 1;
    }
}
