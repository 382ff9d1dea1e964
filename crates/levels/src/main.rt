// Reads lines such as `prime 5` or `binary 3`, and writes the tables of each field.
#![tactic(auto)]

use std::io;
use std::io::{Read, Write};

fn main(rt: HostRuntime) -> io::Result<()> {
    let heap = rt.alloc();
    let mut input = Vec::new(heap);
    rt.stdin().read_to_end(&mut input)?;
    let answers = tables::answers(heap, &input)?;
    rt.stdout().write_all(&answers)
}
