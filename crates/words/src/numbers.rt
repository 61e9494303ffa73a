// Reads bytes as a number.
ghost use Rattle.std.specs.Prelude.{◌≡◌};
ghost use Rattle.words.specs.Numbers.{Decimal, Integer, Keyed, Spelt, numeral};

// The number that decimal digits spell, where it fits 64 bits; zeros may lead.
// Not by the library's `parse`: that reads a `str`, which bytes need not be, and takes a leading `+`.
pub fn digits(bytes: &[u8]) -> Option<u64>
    ensures { result ≡ numeral bytes.now }
{
    if bytes.is_empty() {
        return None;
    }
    let mut n: u64 = 0;
    for b in bytes {
        if !b.is_ascii_digit() {
            return None;
        }
        n = n.checked_mul(10)?.checked_add(u64::from(*b - b'0'))?;
    }
    Some(n)
}

// The number up to `most` that the bytes spell, if they spell one.
pub fn unsigned(bytes: &[u8], most: u64) -> Option<u64>
    ensures { Spelt (Decimal most) bytes.now result }
{
    match bytes {
        [b'0', _, ..] => None,
        _ => digits(bytes).filter(|n| *n <= most),
    }
}

// The signed number that the bytes spell, if they spell one of 64 bits.
pub fn integer(bytes: &[u8]) -> Option<i64>
    ensures { Spelt Integer bytes.now result }
{
    match bytes {
        [b'-', size @ ..] => match unsigned(size, i64::MIN.unsigned_abs()) {
            Some(n) if n > 0 => 0_i64.checked_sub_unsigned(n),
            _ => None,
        },
        _ => unsigned(bytes, i64::MAX.unsigned_abs()).and_then(|n| i64::try_from(n).ok()),
    }
}

// The key and the part that the bytes spell, with a point between them.
pub fn key(bytes: &[u8]) -> Option<(u16, u8)>
    ensures { Spelt Keyed bytes.now result }
{
    let [digits @ .., b'.', part] = bytes else {
        return None;
    };
    if !part.is_ascii_digit() {
        return None;
    }
    let key = u16::try_from(unsigned(digits, 9999)?).ok()?;
    Some((key, *part - b'0'))
}
