// The text of a transaction as a script writes it, with escapes.
ghost use Rattle.std.specs.Prelude.{◌≡◌, ◌<◌, length, None, MatchOption};
ghost use Rattle.script.specs.Escapes.{Unescapes, hex_digit_of, onto, unescaped, EscapesReadBack};
ghost use Rattle.script.specs.declared.escapes.UnescapeError.TheVariants.{Memory};

use std::alloc::{AllocFailed, Global};

// Why a written text is not read.
#[derive(Clone, Copy, Debug, PartialEq, Eq)]
pub enum UnescapeError {
    BadEscape,
    Memory,
}

// A byte that found no memory.
impl From<AllocFailed<u8>> for UnescapeError {
    ghost from_gives = { λ _ e. e ≡ Memory };

    fn from(_: AllocFailed<u8>) -> UnescapeError {
        UnescapeError::Memory
    }
}

// The bytes that a written text stands for.
#[tactic(auto, using(crate::proofs::ReadBack::read_back, crate::proofs::Bytes::after_more))]
pub fn unescape(heap: Global, text: &[u8]) -> Result<Vec<u8>, UnescapeError>
    ensures bytes { Unescapes text.now result }
    ensures reads_back { EscapesReadBack }
{
    let mut bytes = Vec::new(heap);
    let mut rest = text;
    while !rest.is_empty() {
        let (byte, behind) = first_byte(rest).ok_or(UnescapeError::BadEscape)?;
        bytes.push(byte)?;
        rest = behind;
    }
    Ok(bytes)
}

// The byte that the front of a text stands for, with what is written behind it, none where a bad escape begins the text.
#[tactic(auto, using(crate::proofs::Bytes::fronts))]
fn first_byte(text: &[u8]) -> Option<(u8, &[u8])>
    requires { 0 < length text.now }
    ensures { MatchOption result (unescaped text.now ≡ None) (λ p. (unescaped text.now ≡ onto p.0 (unescaped p.1.now)) × (length p.1.now < length text.now)) }
{
    match text {
        [b'\\', b'n', behind @ ..] => Some((b'\n', behind)),
        [b'\\', b'\\', behind @ ..] => Some((b'\\', behind)),
        [b'\\', b'x', high, low, behind @ ..] => {
            Some((16 * hex_digit(*high)? + hex_digit(*low)?, behind))
        }
        [b'\\', ..] => None,
        [byte, behind @ ..] => Some((*byte, behind)),
        [] => None,
    }
}

// What a hexadecimal digit of either case is worth.
fn hex_digit(byte: u8) -> Option<u8>
    ensures { result ≡ hex_digit_of byte }
{
    let digit = char::from(byte).to_digit(16)?;
    u8::try_from(digit).ok()
}
