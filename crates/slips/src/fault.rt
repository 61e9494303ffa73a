// Why a text is no transaction.
ghost use Rattle.std.specs.Prelude.{Some};
ghost use Rattle.slips.specs.FaultTexts.{fault_text};

use std::fmt;

// Its size is out of bounds, or the entry of this number is wrong first at this byte of the text.
#[derive(Clone, Copy)]
pub enum Fault {
    Size,
    Grammar { entry: usize, byte: usize },
}

impl fmt::Display for Fault {
    ghost output = { λ fault. Some (fault_text fault) };

    fn fmt<W: fmt::Write>(&self, f: &mut fmt::Formatter<W>) -> fmt::Result {
        match self {
            Fault::Size => write!(f, "size"),
            Fault::Grammar { entry, byte } => write!(f, "entry {entry} byte {byte}"),
        }
    }
}
