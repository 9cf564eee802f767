// Reads a run file from standard input and writes its listing to standard output, and nothing else.
// A write that fails ends it quietly.
#![tactic(auto)]

use std::io;
use std::io::Write;

fn main(rt: HostRuntime) -> io::Result<()> {
    let mut run = room::run_bytes();
    let n = room::fill(&mut rt.reader(), &mut run)?;
    let mut out = room::listing_bytes();
    if let Ok(len) = player::list(&run[..n], &mut out) {
        let _ = io::writer(&rt).write_all(&out[..len]);
    }
    Ok(())
}
