ghost use Rattle.std.specs.Prelude.{◌≡◌, [], ◌∷◌, ◌++◌, IfOk, IfSome, OnOk, MatchResult};
ghost use Rattle.std.specs.Iterator.{YieldsFirstRef, item_count};
ghost use Rattle.tables.specs.Page.{page};
ghost use Rattle.tables.specs.Text.{refused as refused_text, no_pair, answered as answered_text, answer as answer_text, lines, answers as answers_text};

use crate::cut::cut;
use crate::pages::PageOf;
use crate::request::{Request, RequestError};
use field::{Binary, Field, Prime, Refusal};
use std::alloc::{AllocError, Global};
use std::fmt;
use std::fmt::Write;

// The answers so far. Bytes and no String: a line is answered after its own bytes, whatever they are. What is displayed is written to their end as it comes, with no String between.
#[derive(Drop)]
struct Output(Vec<u8>);

impl fmt::Write for Output {
    ghost write_str_gives = { λ s bs t. t.0.items ≡ s.0.items ++ bs };

    fn write_str(&mut self, text: &str) -> fmt::Result {
        self.0
            .extend_from_slice(text.as_bytes())
            .map_err(|_| fmt::Error)
    }
}

// `out` is an argument here and below, as an output is anywhere: it belongs to no line.
fn push_text<D: fmt::Display + Drop>(out: &mut Output, value: D) -> Result<(), AllocError>
    ensures { OnOk result (IfSome (D.output value) (λ bs. out.new.0.items ≡ out.old.0.items ++ bs)) }
{
    match out.write(value) {
        Ok(()) => Ok(()),
        Err(_) => Err(AllocError),
    }
}

fn push_refused(out: &mut Output, refusal: Refusal) -> Result<(), AllocError>
    ensures { OnOk result (out.new.0.items ≡ out.old.0.items ++ refused_text) }
{
    push_text(
        out,
        format_args!("refused {}: no such field\n", refusal.number()),
    )
}

fn push_no_pair(out: &mut Output, number: usize) -> Result<(), AllocError>
    ensures { OnOk result (out.new.0.items ≡ out.old.0.items ++ no_pair number) }
{
    push_text(
        out,
        format_args!("line {number}: expected a field kind and its number, as in `prime 5`\n"),
    )
}

// The page of a field, where it was made.
fn push_made<F: Field + Drop>(out: &mut Output, made: Result<F, Refusal>) -> Result<(), AllocError>
    ensures { OnOk result (MatchResult made (λ f. out.new.0.items ≡ out.old.0.items ++ page (F.Field.meaning f)) (λ _. out.new.0.items ≡ out.old.0.items ++ refused_text)) }
{
    match made {
        Ok(f) => push_text(out, PageOf(&f)),
        Err(refusal) => push_refused(out, refusal),
    }
}

fn push_answered(
    out: &mut Output,
    number: usize,
    request: Result<Request, RequestError>,
) -> Result<(), AllocError>
    ensures { OnOk result (out.new.0.items ≡ out.old.0.items ++ answered_text number request) }
{
    match request {
        Ok(Request::PrimeField(p)) => push_made(out, Prime::new(p)),
        Ok(Request::BinaryField(k)) => push_made(out, Binary::new(k)),
        Err(RequestError::UnknownKind) => push_refused(out, Refusal::UnknownField),
        Err(RequestError::NoPair) => push_no_pair(out, number),
    }
}

fn push_answer(out: &mut Output, number: usize, line: &[u8]) -> Result<(), AllocError>
    ensures { OnOk result (out.new.0.items ≡ out.old.0.items ++ answer_text number line.now) }
{
    out.0.extend_from_slice(line)?;
    out.0.push(b'\n')?;
    push_answered(out, number, Request::try_from(line))?;
    out.0.push(b'\n')?;
    Ok(())
}

// The lines of a text; the last may lack its line end.
#[derive(Drop)]
struct Lines<'a>(&'a [u8]);

impl<'a> Iterator for Lines<'a> {
    type Item = &'a [u8];

    ghost next_gives = { YieldsFirstRef (λ s. lines s.0.now) };

    ghost remaining = { item_count (λ s. lines s.0.now) };

    fn next(&mut self) -> Option<&'a [u8]> {
        if self.0.is_empty() {
            return None;
        }
        let (line, others) = cut(self.0, b'\n');
        self.0 = others;
        Some(line)
    }
}

// The answers to all lines of the input, in order.
pub fn answers(heap: Global, input: &[u8]) -> Result<Vec<u8>, AllocError>
    ensures { IfOk result (λ v. v.items ≡ answers_text 1 (lines input.now)) }
{
    let mut out = Output(Vec::new(heap));
    for (before, line) in Lines(input).enumerate() {
        push_answer(&mut out, before + 1, line)?;
    }
    Ok(out.0)
}
