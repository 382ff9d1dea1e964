ghost use Rattle.std.specs.Prelude.{◌++◌, Some, codes, decimal};

use crate::lines::{FaultLine, RecordLine};
use sheet::{Reader, SheetFault};
use std::fmt;

// The numbers as they stand: what is no kind of field is printed too.
#[derive(Clone, Copy)]
struct Heading {
    kind: u16,
    number: u16,
    variables: u16,
}

impl fmt::Display for Heading {
    ghost output = { λ h. Some (codes "heading kind " ++ (decimal h.kind ++ (codes " number " ++ (decimal h.number ++ (codes " variables " ++ (decimal h.variables ++ codes "\n")))))) };

    fn fmt<W: fmt::Write>(&self, f: &mut fmt::Formatter<W>) -> fmt::Result {
        let Heading {
            kind,
            number,
            variables,
        } = *self;
        writeln!(
            f,
            "heading kind {kind} number {number} variables {variables}"
        )
    }
}

// The heading of a sheet, and a reader that stands at its first record.
fn read_heading(bytes: &[u8]) -> Result<(Heading, Reader<'_>), SheetFault> {
    let mut reader = Reader::open(bytes)?;
    let (kind, _) = reader.heading_number()?;
    let (number, _) = reader.heading_number()?;
    let (variables, _) = reader.heading_number()?;
    reader.begin(variables);
    let heading = Heading {
        kind,
        number,
        variables,
    };
    Ok((heading, reader))
}

// The lines of a sheet; a fault is the last.
#[derive(Clone, Copy)]
pub struct Listing<'a>(pub &'a [u8]);

impl fmt::Display for Listing<'_> {
    fn fmt<W: fmt::Write>(&self, f: &mut fmt::Formatter<W>) -> fmt::Result {
        match read_heading(self.0) {
            Ok((heading, mut reader)) => {
                write!(f, "{heading}")?;
                loop {
                    match reader.next() {
                        Ok(Some(placed)) => write!(f, "{}", RecordLine(placed))?,
                        Ok(None) => return Ok(()),
                        Err(fault) => return write!(f, "{}", FaultLine(fault)),
                    }
                }
            }
            Err(fault) => write!(f, "{}", FaultLine(fault)),
        }
    }
}
