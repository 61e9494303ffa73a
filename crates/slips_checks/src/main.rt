// Reads texts, right and wrong, and says what the reader says of them.
#![tactic(auto)]

use slips::entry::{Action, Entry};
use slips::read;
use std::io;

// The longest entry, 44 bytes.
const LONG: [u8; 44] = *b"last 9999.9 -9223372036854775808 4294967295\n";

// An entry of 10 bytes.
const SHORT: [u8; 10] = *b"put 0.0 1\n";

fn main(rt: HostRuntime) -> io::Result<()> {
    right(&rt)?;
    wrong_words(&rt)?;
    wrong_numbers(&rt)?;
    limits(&rt)
}

// Texts that are read.
fn right(rt: &HostRuntime) -> io::Result<()> {
    say(rt, "show 1.2 3\n")?;
    say(
        rt,
        "need 9999.9 99 -9223372036854775808\nput 0.0 0\nadd 5.6 -7\n",
    )?;
    say(rt, "max 10.1 9223372036854775807\nmin 2.2 10\n")?;
    say(rt, "last 12.3 -1 4294967295\ntop 1.1 8 0\n")
}

// Words that are missing, surplus or none of an entry's.
fn wrong_words(rt: &HostRuntime) -> io::Result<()> {
    say(rt, "add 0.0 5")?;
    say(rt, " add 0.0 5\n")?;
    say(rt, "add  0.0 5\n")?;
    say(rt, "add 0.0\n")?;
    say(rt, "add 0.0 5 \n")?;
    say(rt, "add 0.0 5 6\n")?;
    say(rt, "ad 0.0 5\n")?;
    say(rt, "last 0.0 1\n")?;
    say(rt, "put 0.0 1\n\n")?;
    say(rt, "\n")
}

// Numbers in another spelling than the canonical one, or out of range.
fn wrong_numbers(rt: &HostRuntime) -> io::Result<()> {
    say(rt, "put 0.0 -0\n")?;
    say(rt, "put 0.0 00\n")?;
    say(rt, "put 0.0 9223372036854775808\n")?;
    say(rt, "put 0.0 -9223372036854775809\n")?;
    say(rt, "put 12345.0 1\n")?;
    say(rt, "put 00.1 1\n")?;
    say(rt, "put 0.10 1\n")?;
    say(rt, "show 0.0 100\n")?;
    say(rt, "show 0.0 03\n")?;
    say(rt, "need 0.0 3 -0\n")?;
    say(rt, "last 0.0 1 4294967296\n")?;
    say(rt, "put 0.0 1\nlast 0.0 1 01\n")
}

// Texts at the limits, and beyond them.
fn limits(rt: &HostRuntime) -> io::Result<()> {
    say(rt, "")?;
    say(rt, "\n\n\n\n\n\n\n\n\n\n\n\n\n\n\n\n")?;
    say(rt, "\n\n\n\n\n\n\n\n\n\n\n\n\n\n\n\n\n")?;
    count(rt, [LONG; 16].as_flattened())?;
    let ended = [SHORT; 17];
    count(rt, &ended.as_flattened()[..169])?;
    count(rt, &[b'x'; 1024])?;
    count(rt, &[b'x'; 1025])
}

// What is read of a text, entry by entry.
fn say(rt: &HostRuntime, text: &str) -> io::Result<()> {
    print!(rt; "{text:?}: ")?;
    match read(text.as_bytes()) {
        Ok(entries) => {
            println!(rt; "read")?;
            for entry in entries.as_slice() {
                spell(rt, *entry)?;
            }
            Ok(())
        }
        Err(fault) => println!(rt; "{fault}"),
    }
}

// How many entries are read of a text.
fn count(rt: &HostRuntime, text: &[u8]) -> io::Result<()> {
    let bytes = text.len();
    print!(rt; "{bytes} bytes: ")?;
    match read(text) {
        Ok(entries) => {
            let n = entries.len();
            println!(rt; "{n} entries")
        }
        Err(fault) => println!(rt; "{fault}"),
    }
}

// One entry in a layout of its own, not as its text has it: with a mark where the verb takes none too.
fn spell(rt: &HostRuntime, entry: Entry) -> io::Result<()> {
    let Entry { key, part, action } = entry;
    match action {
        Action::Show { number } => println!(rt; "  {key}.{part} show {number}"),
        Action::Need { number, bound } => println!(rt;
            "  {key}.{part} need {number} at least {bound}"
        ),
        Action::Change { verb, number, mark } => {
            println!(rt; "  {key}.{part} {verb} {number} mark {mark}")
        }
    }
}
