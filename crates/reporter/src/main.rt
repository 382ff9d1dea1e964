// Runs the sheet of the standard input, and prints what came of it.
#![tactic(auto)]

use report::report;
use std::io;
use std::io::{Read, Write};

fn main(rt: HostRuntime) -> io::Result<()> {
    let heap = rt.alloc();
    let mut sheet = Vec::new(heap);
    let _ = rt.stdin().read_to_end(&mut sheet)?;
    let lines = report(heap, &sheet)?;
    rt.stdout().write_all(&lines)
}
