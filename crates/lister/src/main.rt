// Prints the sheet of the standard input in words, a line for its heading and one for each record.
#![tactic(auto)]

mod lines;
mod listing;

use crate::listing::Listing;
use std::io;
use std::io::Read;

fn main(rt: HostRuntime) -> io::Result<()> {
    let mut bytes = Vec::new(rt.alloc());
    let _ = rt.stdin().read_to_end(&mut bytes)?;
    rt.print(Listing(bytes.as_slice()))
}
