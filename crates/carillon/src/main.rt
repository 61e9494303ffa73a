// The program: it serves a script from a file or from standard input.
#![tactic(auto)]

use desk::serve::serve;
use std::env;
use std::fs::File;
use std::io::{BufRead, BufReader};
use std::process::ExitCode;

const HELP: &str = "carillon [FILE]

Reads a script from FILE, or else from standard input, one command a line, and
writes each command with its reply. Blank lines and lines that begin with # are
copied. Words stand one space apart.

  open LINES TALLIES FIRST KIND   open an engine; KIND is count or four
  run LINE TEXT                   run the transaction that TEXT says; in it \\n is
                                  byte 10, \\\\ a backslash and \\xHH any byte
  tally T.P W                     show number W of part P of tally T

The status is 0, or 1 if a line was not understood or the script could not be
read.
";

fn main(rt: HostRuntime) -> anyhow::Result<ExitCode> {
    let mut words = env::args(&rt)?;
    let _program = words.next();
    match (words.next(), words.next()) {
        (None, _) => run(&rt, &mut BufReader::new(rt.alloc(), rt.stdin())?),
        (Some(word), None) => run_named(&rt, word.as_str()),
        _ => fail(&rt, "usage: carillon [--help | FILE]"),
    }
}

// Shows the help page, or serves the script in a file.
fn run_named(rt: &HostRuntime, word: &str) -> anyhow::Result<ExitCode> {
    if word == "--help" {
        rt.print(HELP)?;
        return Ok(ExitCode::SUCCESS);
    }
    match File::open(rt, word) {
        Ok(file) => run(rt, &mut BufReader::new(rt.alloc(), file)?),
        Err(_) => fail(rt, "the file cannot be opened"),
    }
}

// Serves a script. The status is 1 where it could not be read or some line was not understood.
fn run<R: BufRead>(rt: &HostRuntime, script: &mut R) -> anyhow::Result<ExitCode> {
    let mut out = rt.stdout();
    match serve(rt.alloc(), script, &mut out) {
        Ok(totals) if totals.misunderstood == 0 => Ok(ExitCode::SUCCESS),
        Ok(_) => Ok(ExitCode::FAILURE),
        Err(_) => fail(
            rt,
            "the script cannot be read, or its replies cannot be written",
        ),
    }
}

// Says on standard error what went wrong, and gives the status for it.
fn fail(rt: &HostRuntime, message: &str) -> anyhow::Result<ExitCode> {
    eprintln!(rt; "carillon: {message}")?;
    Ok(ExitCode::FAILURE)
}
