// Prints the report of each sheet whose file is named in the arguments, after a line with its name.
#![tactic(auto)]

use report::report;
use std::io::Write;
use std::{env, fs, io};

fn print_file(rt: &HostRuntime, name: &str) -> io::Result<()> {
    let sheet = fs::read(rt, name)?;
    let lines = report(rt.alloc(), &sheet)?;
    println!(rt; "{name}")?;
    rt.stdout().write_all(&lines)
}

fn main(rt: HostRuntime) -> io::Result<()> {
    for name in env::args(&rt)?.skip(1) {
        print_file(&rt, name.as_str())?;
    }
    Ok(())
}
