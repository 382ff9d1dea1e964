ghost use Rattle.std.specs.Prelude.{◌++◌, Some, codes, decimal};

use sheet::{Numbers, Placed, Record, SheetFault};
use std::fmt;

// A number behind a space.
#[derive(Clone, Copy)]
struct Spaced(u16);

impl fmt::Display for Spaced {
    ghost output = { λ s. Some (codes " " ++ decimal s.0) };

    fn fmt<W: fmt::Write>(&self, f: &mut fmt::Formatter<W>) -> fmt::Result {
        write!(f, " {}", self.0)
    }
}

// A variable to a power above 0.
#[derive(Clone, Copy)]
struct Power {
    variable: u16,
    exponent: u16,
}

impl fmt::Display for Power {
    fn fmt<W: fmt::Write>(&self, f: &mut fmt::Formatter<W>) -> fmt::Result {
        let Power { variable, exponent } = *self;
        if exponent == 1 {
            write!(f, "x{variable}")
        } else {
            write!(f, "x{variable}^{exponent}")
        }
    }
}

// The first `n` of the numbers as a product of powers.
#[derive(Clone, Copy)]
struct Term<'a> {
    n: u16,
    numbers: Numbers<'a>,
}

impl<'a> Term<'a> {
    // The next `n` numbers, which are then taken.
    fn next(n: u16, numbers: &mut Numbers<'a>) -> Term<'a> {
        let term = Term {
            n,
            numbers: *numbers,
        };
        for _ in numbers.by_ref().take(n as usize) {}
        term
    }
}

impl fmt::Display for Term<'_> {
    fn fmt<W: fmt::Write>(&self, f: &mut fmt::Formatter<W>) -> fmt::Result {
        let mut powers = false;
        for (variable, exponent) in (1..=self.n).zip(self.numbers) {
            if exponent > 0 {
                let times = if powers { "*" } else { "" };
                write!(f, "{times}{}", Power { variable, exponent })?;
                powers = true;
            }
        }
        if powers { Ok(()) } else { write!(f, "1") }
    }
}

// A record with the place of its first byte.
#[derive(Clone, Copy)]
pub struct RecordLine<'a>(pub Placed<'a>);

impl fmt::Display for RecordLine<'_> {
    fn fmt<W: fmt::Write>(&self, f: &mut fmt::Formatter<W>) -> fmt::Result {
        let Placed {
            byte,
            variables: n,
            record,
            ..
        } = self.0;
        let mut numbers = record.numbers();
        write!(f, "byte {byte}: ")?;
        match record {
            Record::Term(_) => write!(f, "term {}", Term { n, numbers })?,
            Record::Close => write!(f, "close")?,
            Record::Rule(_) => {
                let term = Term::next(n, &mut numbers);
                let leading = Spaced(numbers.next().unwrap_or(0));
                write!(f, "rule {term} leading{leading} codes")?;
                for code in numbers {
                    write!(f, "{}", Spaced(code))?;
                }
            }
            Record::Check => write!(f, "check")?,
            Record::Question(_) => {
                let pairs = numbers.next().unwrap_or(0);
                let count = Spaced(pairs);
                let plural = if pairs == 1 { "" } else { "s" };
                write!(f, "question of{count} pair{plural}:")?;
                // By their count: the numbers are taken as they are printed.
                for k in 0..pairs {
                    let comma = if k > 0 { "," } else { "" };
                    let code = Spaced(numbers.next().unwrap_or(0));
                    let term = Term::next(n, &mut numbers);
                    write!(f, "{comma}{code} {term}")?;
                }
            }
            Record::Strike(_) => write!(f, "strike {}", Term { n, numbers })?,
        }
        writeln!(f)
    }
}

// A fault's layer, its number, its byte and its record.
#[derive(Clone, Copy)]
pub struct FaultLine(pub SheetFault);

impl fmt::Display for FaultLine {
    fn fmt<W: fmt::Write>(&self, f: &mut fmt::Formatter<W>) -> fmt::Result {
        let fault = self.0;
        let layer = fault.layer().name();
        let number = fault.number();
        let byte = fault.byte();
        let record = fault.record();
        writeln!(f, "fault {layer} {number} {byte} {record}")
    }
}
