// Builds lists of calls over a supplied field and over another's field, runs each on a new book, and prints what every call answered and wrote.
#![tactic(auto)]

mod show;
mod worked;

use crate::show::Shown;
use field::{Field, Prime};
use nine::Nine;
use run::{Line, replay};
use std::alloc::{AllocError, Global};
use std::io;

fn report<F: Field + Drop>(
    heap: Global,
    name: &str,
    field: F,
    mut lines: Vec<Line>,
) -> Result<String, AllocError> {
    replay(field, &mut lines);
    let mut text = format!(in heap; "{name}\n")?;
    for line in &lines {
        writeln!(text, "{}", Shown(line))?;
    }
    Ok(text)
}

fn over_three(heap: Global, name: &str, lines: Vec<Line>) -> Result<String, AllocError> {
    match Prime::new(3) {
        Ok(three) => report(heap, name, three, lines),
        Err(_) => format!(in heap; "no field of order 3\n"),
    }
}

fn main(rt: HostRuntime) -> io::Result<()> {
    let heap = rt.alloc();
    rt.print(over_three(heap, "the square, order 3", worked::square(heap)?)?)?;
    rt.print(report(heap, "the square, order 9", Nine, worked::square(heap)?)?)?;
    rt.print(report(heap, "scaled rules, order 9", Nine, worked::scaled(heap)?)?)?;
    rt.print(over_three(heap, "the chain, order 3", worked::chain(heap)?)?)?;
    rt.print(over_three(heap, "one border product, order 3", worked::short(heap)?)?)?;
    rt.print(over_three(heap, "limits, order 3", worked::limits(heap)?)?)
}
