// What a command line asks for.
ghost use Rattle.std.specs.Prelude.{◌≡◌};
ghost use Rattle.std.specs.Option.{option_map};
ghost use Rattle.script.specs.Commands.{KindNamed, meaning, leads, keyed, opening, running, showing, command, PlainlyUnderstood};
ghost use Rattle.script.specs.Led.{led};

use crate::cuts::cut;
use solo::solo::Figures;
use words::numbers::digits;

// The kinds of record that an engine can be opened with.
#[derive(Clone, Copy)]
pub enum KindName {
    Count,
    Four,
}

// A word that names no kind.
#[derive(Clone, Copy, Debug, PartialEq, Eq)]
pub struct UnknownKind;

// The kind that a word names, if it names one.
impl TryFrom<&[u8]> for KindName {
    type Error = UnknownKind;

    ghost try_from_gives = { λ word r. KindNamed word.now r };

    fn try_from(word: &[u8]) -> Result<KindName, UnknownKind> {
        match word {
            b"count" => Ok(KindName::Count),
            b"four" => Ok(KindName::Four),
            _ => Err(UnknownKind),
        }
    }
}

// What an engine is opened with: its figures and its kind.
#[derive(Clone, Copy)]
pub struct Opening {
    pub figures: Figures,
    pub kind: KindName,
}

// Which number is asked for: by its record's key, the part and the number in the part.
#[derive(Clone, Copy)]
pub struct Query {
    pub key: u64,
    pub part: u64,
    pub number: u64,
}

// A command of a script. The text of a transaction stands as it is written, with its escapes.
#[derive(Clone, Copy)]
pub enum Command<'a> {
    Open(Opening),
    Run { worker: u64, text: &'a [u8] },
    Tally(Query),
}

// The command that a line spells, none where it is not understood.
#[tactic(auto, using(crate::proofs::Understood::understood, crate::proofs::Names::unnamed))]
pub fn parse(line: &[u8]) -> Option<Command<'_>>
    ensures command { option_map meaning result ≡ command line.now }
    ensures plainly { PlainlyUnderstood }
{
    let (word, words) = cut(line, b' ');
    let words = words?;
    match word {
        b"open" => open(words),
        b"run" => run(words),
        b"tally" => tally(words),
        _ => None,
    }
}

// The opening that the words behind `open` ask for.
#[tactic(auto, using(crate::proofs::Names::kind_read))]
fn open(words: &[u8]) -> Option<Command<'_>>
    ensures { option_map meaning result ≡ opening words.now }
{
    let (workers, words) = leading(words)?;
    let (keys, words) = leading(words)?;
    let (first, words) = leading(words)?;
    let kind = KindName::try_from(words).ok()?;
    let figures = Figures {
        workers,
        keys,
        first,
    };
    Some(Command::Open(Opening { figures, kind }))
}

// The run that the words behind `run` ask for; a text that is left out is empty.
fn run(words: &[u8]) -> Option<Command<'_>>
    ensures { option_map meaning result ≡ running words.now }
{
    let (worker, text) = cut(words, b' ');
    let worker = digits(worker)?;
    Some(Command::Run {
        worker,
        text: text.unwrap_or(&[]),
    })
}

// The number to show that the words behind `tally` ask for.
fn tally(words: &[u8]) -> Option<Command<'_>>
    ensures { option_map meaning result ≡ showing words.now }
{
    let (tally, shown) = cut(words, b' ');
    let shown = shown?;
    let (key, part) = key_and_part(tally)?;
    let number = digits(shown)?;
    Some(Command::Tally(Query { key, part, number }))
}

// A key and a part of it, with a point between them.
fn key_and_part(word: &[u8]) -> Option<(u64, u64)>
    ensures { result ≡ keyed word.now }
{
    let (key, part) = cut(word, b'.');
    let key = digits(key)?;
    let part = digits(part?)?;
    Some((key, part))
}

// The number in front of a space, with what stands behind that.
fn leading(words: &[u8]) -> Option<(u64, &[u8])>
    ensures { option_map led result ≡ leads words.now }
{
    let (word, rest) = cut(words, b' ');
    let n = digits(word)?;
    Some((n, rest?))
}
