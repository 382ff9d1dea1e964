use algebra::Entry;
use book::{Refusal, Verdict};
use run::{Answer, Call, Line};
use std::fmt;

// A function and no Display: `Call` is another crate's.
fn call_name(call: &Call) -> &'static str {
    match call {
        Call::Lay(_) => "lay",
        Call::Term(_) => "term",
        Call::Close => "close",
        Call::Rule(_) => "rule",
        Call::Strike(_) => "strike",
        Call::Check(_, _) => "check",
        Call::Form(_, _) => "form",
        Call::Cofactors(_, _, _) => "cofactors",
        Call::Table(_, _) => "table",
    }
}

#[derive(Clone, Copy)]
struct Checked(Verdict);

impl fmt::Display for Checked {
    fn fmt<W: fmt::Write>(&self, f: &mut fmt::Formatter<W>) -> fmt::Result {
        match self.0 {
            Verdict::Consistent => write!(f, "sound"),
            Verdict::Clashes {
                term,
                a,
                b,
                entries,
            } => write!(f, "clash {term} {a} {b} {entries}"),
        }
    }
}

#[derive(Clone, Copy)]
struct Granted(Answer);

impl fmt::Display for Granted {
    fn fmt<W: fmt::Write>(&self, f: &mut fmt::Formatter<W>) -> fmt::Result {
        match self.0 {
            Answer::Done => write!(f, "0"),
            Answer::Border(size) => write!(f, "{size}"),
            Answer::Checked(verdict) => write!(f, "{}", Checked(verdict)),
            Answer::Formed(true) => write!(f, "yes"),
            Answer::Formed(false) => write!(f, "no"),
            Answer::Counted(count, zero) => write!(f, "{count} {zero}"),
        }
    }
}

#[derive(Clone, Copy)]
struct Outcome(Option<Result<Answer, Refusal>>);

impl fmt::Display for Outcome {
    fn fmt<W: fmt::Write>(&self, f: &mut fmt::Formatter<W>) -> fmt::Result {
        match self.0 {
            Some(Ok(answer)) => write!(f, "{}", Granted(answer)),
            Some(Err(refusal)) => write!(f, "refused {} {}", refusal.number(), refusal.beside()),
            None => write!(f, "not run"),
        }
    }
}

// An element of a slice that a call left.
#[derive(Clone, Copy)]
struct Element<T>(T);

impl fmt::Display for Element<u16> {
    fn fmt<W: fmt::Write>(&self, f: &mut fmt::Formatter<W>) -> fmt::Result {
        write!(f, "{}", self.0)
    }
}

impl fmt::Display for Element<Entry> {
    fn fmt<W: fmt::Write>(&self, f: &mut fmt::Formatter<W>) -> fmt::Result {
        let entry = self.0;
        write!(f, "{}*", entry.code)?;
        for exponent in &entry.multiplier {
            write!(f, "{exponent}")?;
        }
        write!(f, "@{}", entry.place)
    }
}

// A word, and each element behind a space.
#[derive(Clone, Copy)]
struct Listed<'a, T>(&'static str, &'a [T]);

impl<T: Copy> fmt::Display for Listed<'_, T>
where
    Element<T>: fmt::Display,
{
    fn fmt<W: fmt::Write>(&self, f: &mut fmt::Formatter<W>) -> fmt::Result {
        write!(f, ", {}", self.0)?;
        for element in self.1 {
            write!(f, " {}", Element(*element))?;
        }
        Ok(())
    }
}

// A call's name, its answer, and its slices as the call left them.
#[derive(Clone, Copy)]
pub struct Shown<'a>(pub &'a Line);

impl fmt::Display for Shown<'_> {
    fn fmt<W: fmt::Write>(&self, f: &mut fmt::Formatter<W>) -> fmt::Result {
        let Line { call, answer } = self.0;
        write!(f, "{}: {}", call_name(call), Outcome(*answer))?;
        match call {
            Call::Check(row, entries) | Call::Cofactors(_, row, entries) => {
                write!(f, "{}{}", Listed("row", row), Listed("entries", entries))
            }
            Call::Form(_, row) | Call::Table(_, row) => write!(f, "{}", Listed("row", row)),
            _ => Ok(()),
        }
    }
}
