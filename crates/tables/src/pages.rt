ghost use Rattle.std.specs.Prelude.{◌≡◌, ◌<◌, Some, IfOk};
ghost use Rattle.tables.specs.Page.{digit as digit_of, cell, apply as applied, entry as entry_of, label as label_of, line as line_of, table as table_of, page as page_of};

use field::Field;
use std::alloc::{AllocError, Global};
use std::fmt;
use std::fmt::Display;

#[derive(Clone, Copy)]
pub enum Operation {
    Sum,
    Product,
}

impl Operation {
    fn apply<F: Field>(self, f: &F, a: u16, b: u16) -> u16
        ensures { result ≡ applied self (F.Field.meaning f.now) a b }
    {
        match self {
            Operation::Sum => f.sum(a, b),
            Operation::Product => f.product(a, b),
        }
    }
}

// A line of a page: the codes above a table, a row of it, the negatives or the inverses.
#[derive(Clone, Copy)]
pub enum Line {
    Heads(Operation),
    Row(Operation, u16),
    Negatives,
    Inverses,
}

impl Line {
    // What stands in the line under the code `b`.
    fn entry<F: Field>(self, f: &F, b: u16) -> Option<u16>
        ensures { result ≡ entry_of self (F.Field.meaning f.now) b }
    {
        match self {
            Line::Heads(_) => Some(b),
            Line::Row(operation, a) => Some(operation.apply(f, a, b)),
            Line::Negatives => Some(f.negative(b)),
            Line::Inverses => f.inverse(b),
        }
    }
}

// The digit of `n` in the place of `unit`, or a blank before its first digit. Every code has a text of four columns; `{n:>4}` is that text only below 1,000.
fn digit(n: u16, unit: u16) -> u8
    requires { 0 < unit }
    ensures { result ≡ digit_of n unit }
{
    if n < unit {
        b' '
    } else {
        b'0' + (n / unit % 10) as u8
    }
}

// A code in its column.
fn column(n: u16) -> [u8; 4]
    ensures { result ≡ cell (Some n) }
{
    let text = [b' ', digit(n, 100), digit(n, 10), b'0' + (n % 10) as u8];
    // As one number: four bytes that are stored one by one and loaded at once hold a processor up.
    u32::from_le_bytes(text).to_le_bytes()
}

// A code in its column, or a dash where there is none.
#[derive(Clone, Copy)]
struct Cell(Option<u16>);

impl fmt::Display for Cell {
    ghost output = { λ c. Some (cell c.0) };

    #[inline(always)]
    fn fmt<W: fmt::Write>(&self, f: &mut fmt::Formatter<W>) -> fmt::Result {
        match self.0 {
            Some(n) => {
                let text = column(n);
                f.write_str(unsafe { str::from_utf8_unchecked(&text) })
            }
            None => f.write_str("   -"),
        }
    }
}

impl fmt::Display for Line {
    ghost output = { λ l. Some (label_of l) };

    fn fmt<W: fmt::Write>(&self, f: &mut fmt::Formatter<W>) -> fmt::Result {
        match *self {
            Line::Heads(Operation::Sum) => f.write_str("   +"),
            Line::Heads(Operation::Product) => f.write_str("   *"),
            Line::Row(_, a) => Cell(Some(a)).fmt(f),
            Line::Negatives => f.write_str(" neg"),
            Line::Inverses => f.write_str(" inv"),
        }
    }
}

// A line with what stands in it over a field.
#[derive(Drop)]
struct Filled<'a, F>(Line, &'a F);

impl<F: Field> fmt::Display for Filled<'_, F> {
    ghost output = { λ l. Some (line_of l.0 (F.Field.meaning l.1.now)) };

    fn fmt<W: fmt::Write>(&self, f: &mut fmt::Formatter<W>) -> fmt::Result {
        let line = self.0;
        let field = self.1;
        line.fmt(f)?;
        for b in 0..field.order() {
            Cell(line.entry(field, b)).fmt(f)?;
        }
        f.write_str("\n")
    }
}

#[derive(Drop)]
struct Table<'a, F>(Operation, &'a F);

impl<F: Field> fmt::Display for Table<'_, F> {
    ghost output = { λ t. Some (table_of t.0 (F.Field.meaning t.1.now)) };

    fn fmt<W: fmt::Write>(&self, f: &mut fmt::Formatter<W>) -> fmt::Result {
        let operation = self.0;
        let field = self.1;
        Filled(Line::Heads(operation), field).fmt(f)?;
        for a in 0..field.order() {
            Filled(Line::Row(operation, a), field).fmt(f)?;
        }
        Ok(())
    }
}

// The whole page of a field.
#[derive(Drop)]
pub(crate) struct PageOf<'a, F>(pub(crate) &'a F);

impl<F: Field> fmt::Display for PageOf<'_, F> {
    ghost output = { λ p. Some (page_of (F.Field.meaning p.0.now)) };

    fn fmt<W: fmt::Write>(&self, f: &mut fmt::Formatter<W>) -> fmt::Result {
        let field = self.0;
        let order = Cell(Some(field.order()));
        let sums = Table(Operation::Sum, field);
        let products = Table(Operation::Product, field);
        let negatives = Filled(Line::Negatives, field);
        let inverses = Filled(Line::Inverses, field);
        write!(f, "order{order}\n{sums}{products}{negatives}{inverses}")
    }
}

// The page of any lawful field.
pub fn page<F: Field>(heap: Global, f: &F) -> Result<Vec<u8>, AllocError>
    ensures { IfOk result (λ v. v.items ≡ page_of (F.Field.meaning f.now)) }
{
    let text = format!(in heap; "{}", PageOf(f))?;
    Ok(text.into_bytes())
}
