// What an operation leaves behind.
ghost use Rattle.std.specs.Prelude.{◌≡◌};
ghost use Rattle.triples.specs.Triples.{triple_of, field};

use kinds::operation::Argument;

// An order, the worker that brought it, and its mark. Triples are compared by order, then by worker, then by mark.
#[derive(Clone, Copy, PartialEq, Eq, PartialOrd, Ord)]
pub struct Triple {
    pub order: i64,
    pub worker: u8,
    pub mark: u32,
}

// The argument's number is the order.
impl From<Argument> for Triple {
    ghost from_gives = { λ argument result. result ≡ triple_of argument };

    fn from(argument: Argument) -> Triple {
        Triple {
            order: argument.number,
            worker: argument.worker,
            mark: argument.mark,
        }
    }
}

impl Triple {
    // One of its numbers: the order, the worker, or else the mark.
    pub(crate) fn number(self, place: u8) -> i64
        ensures { result ≡ field place self }
    {
        match place {
            0 => self.order,
            1 => i64::from(self.worker),
            _ => i64::from(self.mark),
        }
    }
}
