// Serves a script that has lines of every kind, those that are not understood too.
#![tactic(auto)]

use desk::serve::serve;
use std::io;
use std::io::BufReader;

fn main(rt: HostRuntime) -> io::Result<()> {
    let mut script = BufReader::new(rt.alloc(), rt.stdin())?;
    let mut out = rt.stdout();
    let _totals = serve(rt.alloc(), &mut script, &mut out)?;
    Ok(())
}
