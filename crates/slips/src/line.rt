// Reads one entry of a text.
ghost use Rattle.std.specs.Prelude.{◌≡◌, ℕ, ◌<◌, List, length, MatchResult};
ghost use Rattle.words.specs.Numbers.{Integer, Keyed, Spelt};
ghost use Rattle.slips.specs.Canon.{marked};
ghost use Rattle.slips.specs.Forms.{Heading, Shown, Mark, ReadWord, Acts, Misses, EntryAt, WrongAt};

use crate::entry::{Action, Entry};
use kinds::operation::Verb;
use words::numbers;
use words::word::{Word, word_at};

// What an entry's first word asks for.
#[derive(Clone, Copy)]
pub enum Head {
    Show,
    Need,
    Change(Verb),
}

// A kind of value that a word of an entry spells.
trait Spelled: Sized {
    ghost spelling: { Self → List ℕ → Type 0 };

    // What the bytes spell, if they spell a value.
    fn from_bytes(bytes: &[u8]) -> Option<Self>
        ensures { Spelt spelling bytes.now result };
}

// The entry at `at`, with the place behind its ending byte, or the place of its first wrong word.
pub(crate) fn entry_at(text: &[u8], at: usize) -> Result<(Entry, usize), usize>
    requires { at < length text.now }
    ensures { MatchResult result (λ p. EntryAt text.now at p.0 p.1) (λ b. WrongAt text.now at b) }
{
    let first = word_at(text, at);
    let head = read_word(&first)?;
    let second = first.next(text);
    let (key, part) = read_word(&second)?;
    let third = second.next(text);
    let fourth = third.next(text);
    let (action, last) = action(head, third, fourth)?;
    let end = last.ending(text)?;
    Ok((Entry { key, part, action }, end))
}

// The action that the words behind a key spell, with the last of them, or the place of the first wrong one.
fn action<'a>(head: Head, first: Word<'a>, second: Word<'a>) -> Result<(Action, Word<'a>), usize>
    ensures { MatchResult result (λ p. Acts head first.entry second.entry p.0 p.1) (λ b. Misses head first.entry second.entry b) }
{
    match head {
        Head::Show => {
            let number = read_word(&first)?;
            Ok((Action::Show { number }, first))
        }
        Head::Need => {
            let number = read_word(&first)?;
            let bound = read_word(&second)?;
            Ok((Action::Need { number, bound }, second))
        }
        Head::Change(verb) => {
            let number = read_word(&first)?;
            if takes_mark(verb) {
                let mark = read_word(&second)?;
                Ok((Action::Change { verb, number, mark }, second))
            } else {
                let mark = 0;
                Ok((Action::Change { verb, number, mark }, first))
            }
        }
    }
}

// Whether a mark follows the number.
fn takes_mark(verb: Verb) -> bool
    ensures { result ≡ marked verb }
{
    matches!(verb, Verb::Last | Verb::Top)
}

// What a word spells, or the word's place where it spells nothing of the kind.
fn read_word<T: Spelled>(word: &Word) -> Result<T, usize>
    ensures { ReadWord T.spelling word.now result }
{
    T::from_bytes(word.bytes).ok_or(word.at)
}

// What an entry's first word asks for.
impl Spelled for Head {
    ghost spelling = { Heading };

    fn from_bytes(bytes: &[u8]) -> Option<Head> {
        match bytes {
            b"show" => Some(Head::Show),
            b"need" => Some(Head::Need),
            b"put" => Some(Head::Change(Verb::Put)),
            b"add" => Some(Head::Change(Verb::Add)),
            b"max" => Some(Head::Change(Verb::Max)),
            b"min" => Some(Head::Change(Verb::Min)),
            b"last" => Some(Head::Change(Verb::Last)),
            b"top" => Some(Head::Change(Verb::Top)),
            _ => None,
        }
    }
}

// A key and the part of its record.
impl Spelled for (u16, u8) {
    ghost spelling = { Keyed };

    fn from_bytes(bytes: &[u8]) -> Option<(u16, u8)> {
        numbers::key(bytes)
    }
}

// The number of a shown number.
impl Spelled for u8 {
    ghost spelling = { Shown };

    fn from_bytes(bytes: &[u8]) -> Option<u8> {
        numbers::unsigned(bytes, 99).and_then(|n| u8::try_from(n).ok())
    }
}

// A signed number: a change's, or a bound.
impl Spelled for i64 {
    ghost spelling = { Integer };

    fn from_bytes(bytes: &[u8]) -> Option<i64> {
        numbers::integer(bytes)
    }
}

// A mark.
impl Spelled for u32 {
    ghost spelling = { Mark };

    fn from_bytes(bytes: &[u8]) -> Option<u32> {
        numbers::unsigned(bytes, u64::from(u32::MAX)).and_then(|n| u32::try_from(n).ok())
    }
}
