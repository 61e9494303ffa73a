// Reads a script line by line, and writes each line with its reply.
ghost use Rattle.std.specs.Prelude.{◌≡◌, IfOk};
ghost use Rattle.replies.specs.Totals.{Fair};
ghost use Rattle.desk.specs.Lines.{unbroken};

use crate::desk::Desk;
use replies::texts::Answered;
use replies::totals::Totals;
use script::is_command;
use std::alloc::Global;
use std::io;
use std::io::{BufRead, Write};

// Serves a script to its end, writes the closing line, and gives the totals.
pub fn serve<R: BufRead, W: Write>(heap: Global, script: &mut R, out: &mut W) -> io::Result<Totals>
    ensures { IfOk result (λ t. Fair t) }
{
    let mut desk = Desk::new();
    let mut line = Vec::new(heap);
    // A loop that goes on while there are lines would need a handle `Wait`, since a script need not end; the line's buffer is used again.
    for _ in 0..u64::MAX {
        line.clear();
        if script.read_until(b'\n', &mut line)? == 0 {
            break;
        }
        serve_line(heap, &mut desk, without_break(line.as_slice()), out)?;
    }
    let totals = desk.totals();
    writeln!(out, "{totals}")?;
    out.flush()?;
    Ok(totals)
}

// Writes a line, with the reply if it is a command.
fn serve_line<W: Write>(heap: Global, desk: &mut Desk, line: &[u8], out: &mut W) -> io::Result<()> {
    out.write_all(line)?;
    if is_command(line) {
        let answer = desk.answer(heap, line);
        let answered = Answered(&answer);
        write!(out, " => {answered}")?;
    }
    out.write_all(b"\n")?;
    out.flush()
}

// A line without the byte that breaks it from the next.
fn without_break(line: &[u8]) -> &[u8]
    ensures { result.now ≡ unbroken line.now }
{
    match line {
        [text @ .., b'\n'] => text,
        _ => line,
    }
}
