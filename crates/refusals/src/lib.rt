// Why a call gave nothing: the refusals of every engine, with their numbers and the values that they name.
#![tactic(auto)]

ghost use Rattle.std.specs.Prelude.{◌≡◌, [], Some};
ghost use Rattle.std.specs.List.{slice_get};
ghost use Rattle.slips.specs.Reads.{code as fault_code};
ghost use Rattle.refusals.specs.Codes.{code};
ghost use Rattle.refusals.specs.Texts.{refusal_text};

use slips::fault::Fault;
use std::alloc::AllocError;
use std::fmt;

// A refusal has a number, and may name an entry and a byte of the text. `Memory` has no number.
#[derive(Clone, Copy)]
pub enum Refusal {
    Figures,
    TableLength,
    NoWorker,
    WrongPhase,
    HandFull,
    NothingRuns,
    TicketsOut,
    TextSize,
    Grammar { entry: usize, byte: usize },
    NoKey { entry: usize },
    NotTaken { entry: usize },
    StashEmpty,
    LeftOver,
    Acknowledged,
    BadSplit,
    NotAcknowledged,
    NotEnded,
    ShortBuffer,
    Memory,
}

impl Refusal {
    // The refusal's number, if it has one: callers are told of a refusal by number, so the enum gives it.
    pub fn number(&self) -> Option<u8>
        ensures { result ≡ slice_get (code self.now) 0 }
    {
        match *self {
            Refusal::Figures => Some(1),
            Refusal::TableLength => Some(2),
            Refusal::NoWorker => Some(3),
            Refusal::WrongPhase => Some(4),
            Refusal::HandFull => Some(5),
            Refusal::NothingRuns => Some(6),
            Refusal::TicketsOut => Some(7),
            Refusal::TextSize => Some(8),
            Refusal::Grammar { .. } => Some(9),
            Refusal::NoKey { .. } => Some(10),
            Refusal::NotTaken { .. } => Some(11),
            Refusal::StashEmpty => Some(12),
            Refusal::LeftOver => Some(13),
            Refusal::Acknowledged => Some(14),
            Refusal::BadSplit => Some(15),
            Refusal::NotAcknowledged => Some(16),
            Refusal::NotEnded => Some(17),
            Refusal::ShortBuffer => Some(18),
            Refusal::Memory => None,
        }
    }

    // The number, from 0 on, of the entry that was refused.
    pub fn entry(&self) -> Option<usize>
        ensures { result ≡ slice_get (code self.now) 1 }
    {
        match *self {
            Refusal::Grammar { entry, .. } => Some(entry),
            Refusal::NoKey { entry } => Some(entry),
            Refusal::NotTaken { entry } => Some(entry),
            _ => None,
        }
    }

    // The byte of the text at which it goes wrong.
    pub fn byte(&self) -> Option<usize>
        ensures { result ≡ slice_get (code self.now) 2 }
    {
        match *self {
            Refusal::Grammar { byte, .. } => Some(byte),
            _ => None,
        }
    }
}

// The number, and then the entry and the byte that the refusal names.
// Case by case, with the number in the text: standard output has no buffer, so each value that is written apart is a write of its own.
impl fmt::Display for Refusal {
    ghost output = { λ r. Some (refusal_text (code r)) };

    #[tactic(auto, using(crate::proofs::Wording::figures))]
    fn fmt<W: fmt::Write>(&self, f: &mut fmt::Formatter<W>) -> fmt::Result {
        match self {
            Refusal::Figures => write!(f, "refused 1"),
            Refusal::TableLength => write!(f, "refused 2"),
            Refusal::NoWorker => write!(f, "refused 3"),
            Refusal::WrongPhase => write!(f, "refused 4"),
            Refusal::HandFull => write!(f, "refused 5"),
            Refusal::NothingRuns => write!(f, "refused 6"),
            Refusal::TicketsOut => write!(f, "refused 7"),
            Refusal::TextSize => write!(f, "refused 8"),
            Refusal::Grammar { entry, byte } => write!(f, "refused 9 entry {entry} byte {byte}"),
            Refusal::NoKey { entry } => write!(f, "refused 10 entry {entry}"),
            Refusal::NotTaken { entry } => write!(f, "refused 11 entry {entry}"),
            Refusal::StashEmpty => write!(f, "refused 12"),
            Refusal::LeftOver => write!(f, "refused 13"),
            Refusal::Acknowledged => write!(f, "refused 14"),
            Refusal::BadSplit => write!(f, "refused 15"),
            Refusal::NotAcknowledged => write!(f, "refused 16"),
            Refusal::NotEnded => write!(f, "refused 17"),
            Refusal::ShortBuffer => write!(f, "refused 18"),
            Refusal::Memory => write!(f, "no memory"),
        }
    }
}

// The reader's faults are refusals under the same numbers.
impl From<Fault> for Refusal {
    ghost from_gives = { λ fault r. code r ≡ fault_code fault };

    fn from(fault: Fault) -> Refusal {
        match fault {
            Fault::Size => Refusal::TextSize,
            Fault::Grammar { entry, byte } => Refusal::Grammar { entry, byte },
        }
    }
}

// Want of memory has no number.
impl From<AllocError> for Refusal {
    ghost from_gives = { λ _ r. code r ≡ [] };

    fn from(_fault: AllocError) -> Refusal {
        Self::Memory
    }
}
