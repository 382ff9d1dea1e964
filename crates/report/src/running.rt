// A sheet run from its first byte to its last, or to the fault that stops it.
ghost use Rattle.std.specs.Prelude.{◌≡◌, ◌≤◌, ◌++◌, length, IfOk, OnOk};
ghost use Rattle.book.specs.Kept.{ledger};
ghost use Rattle.run.specs.Calls.{step_of};
ghost use Rattle.sheet.specs.Reading.{state, seen};
ghost use Rattle.lines.specs.Line.{said, text, width};
ghost use Rattle.report.specs.Heading.{with_field, headed};
ghost use Rattle.report.specs.Running.{items, row_left, printed, said_all, lines as lines_of, told, report_lines, texts, left, Ends, Closed, RecordEnds};
ghost use Rattle.report.specs.Telling.{Reported};

use crate::calls::call_of;
use crate::heading::FieldKind;
use crate::stop::{Stop, by_book, by_field};
use book::{Book, Verdict};
use field::{Binary, Field, Prime};
use lines::Line;
use run::{Answer, Call, perform};
use sheet::{Placed, Reader};
use std::alloc::{AllocError, Global};

// Every line of a book fits: its row has at most 32 codes. So a line is written on the stack, and only its bytes go to the heap.
const LINE: usize = 1024;

fn push_line(out: &mut Vec<u8>, line: Line<'_>) -> Result<(), AllocError>
    requires { width (said line) ≤ 1024 }
    ensures { OnOk result (out.new.items ≡ out.old.items ++ text (said line.entry)) }
{
    let mut memory = [0u8; LINE];
    match line.write(&mut memory) {
        Ok(size) => out.extend_from_slice(&memory[0..size]),
        Err(_) => unreachable(),
    }
}

// The row that a question has left. Empty and no Option where there is none: it is printed as it is.
fn row_left(call: &Call) -> &[u16]
    ensures { result.now ≡ row_left (step_of call.now) }
{
    match call {
        Call::Cofactors(_, row, _) => row.as_slice(),
        _ => &[],
    }
}

// The line of a granted call, if it has one.
fn line_of(call: &Call, answer: Answer) -> Option<Line<'_>>
    ensures { said_all result ≡ printed (row_left (step_of call.now)) answer }
{
    match answer {
        Answer::Checked(Verdict::Consistent) => Some(Line::Sound),
        Answer::Checked(Verdict::Clashes { term, a, b, .. }) => Some(Line::Clash { term, a, b }),
        Answer::Counted(count, zero) => {
            let codes = row_left(call);
            let member = zero == 1;
            Some(Line::Form {
                codes,
                member,
                count,
            })
        }
        Answer::Done | Answer::Border(_) | Answer::Formed(_) => None,
    }
}

fn push_answer(out: &mut Vec<u8>, call: &Call, answer: Answer) -> Result<(), AllocError>
    requires { length (row_left (step_of call.now)) ≤ 32 }
    ensures { OnOk result (out.new.items ≡ out.old.items ++ texts (printed (row_left (step_of call.now)) answer)) }
{
    match line_of(call, answer) {
        Some(line) => push_line(out, line),
        None => Ok(()),
    }
}

// Puts the call of a record to the book, and pushes its line.
fn run_record<F: Field>(
    book: &mut Book<F>,
    placed: Placed<'_>,
    out: &mut Vec<u8>,
) -> Result<(), Stop>
    ensures field { book.new.field ≡ book.old.field }
    ensures ends { RecordEnds (F.Field.meaning book.old.field) (ledger book.old.contents) (ledger book.new.contents) (seen placed.entry) result out.old.items out.new.items }
{
    let byte = placed.byte;
    let record = placed.count;
    let mut call = call_of(*out.allocator(), book.size(), placed)?;
    let answer = by_book(perform(book, &mut call), byte, record)?;
    push_answer(out, &call, answer)?;
    Ok(())
}

// The records from where the reader stands to the end of the sheet.
fn run_records<F: Field>(
    book: &mut Book<F>,
    reader: &mut Reader<'_>,
    out: &mut Vec<u8>,
) -> Result<(), Stop>
    ensures { Ends result out.old.items out.new.items (lines_of (F.Field.meaning book.old.field) (ledger book.old.contents) (items (left (state reader.old)) (state reader.old))) }
{
    while let Some(placed) = reader.next()? {
        run_record(book, placed, out)?;
    }
    Ok(())
}

// The rest of a sheet over a field: the number of variables, and the records.
fn run_over<F: Field + Drop>(
    field: F,
    reader: &mut Reader<'_>,
    out: &mut Vec<u8>,
) -> Result<(), Stop>
    ensures { Ends result out.old.items out.new.items (told (with_field (state reader.old) (F.Field.meaning field)) (length (state reader.old).sheet)) }
{
    let (variables, byte) = reader.heading_number()?;
    let mut book = Book::new(field);
    by_book(book.lay(variables), byte, 0)?;
    reader.begin(variables);
    run_records(&mut book, reader, out)
}

fn run_sheet(sheet: &[u8], out: &mut Vec<u8>) -> Result<(), Stop>
    ensures { Ends result out.old.items out.new.items (report_lines sheet.now) }
{
    let mut reader = Reader::open(sheet)?;
    let (kind, kind_byte) = reader.heading_number()?;
    let kind = by_field(FieldKind::try_from(kind), kind_byte)?;
    let (number, byte) = reader.heading_number()?;
    match kind {
        FieldKind::PrimeKind => run_over(by_field(Prime::new(number), byte)?, &mut reader, out),
        FieldKind::BinaryKind => run_over(by_field(Binary::new(number), byte)?, &mut reader, out),
    }
}

// The line of what stopped a run; for want of memory there is none.
fn push_stop(out: &mut Vec<u8>, stop: Stop) -> Result<(), AllocError>
    ensures { OnOk result (Closed stop out.old.items out.new.items) }
{
    match stop {
        Stop::Fault(fault) => push_line(out, Line::Fault(fault)),
        Stop::NoMemory => Err(AllocError),
    }
}

// The lines of a sheet; a fault is the last.
pub fn report(heap: Global, sheet: &[u8]) -> Result<Vec<u8>, AllocError>
    ensures text { IfOk result (λ v. v.items ≡ texts (report_lines sheet.now)) }
    ensures meaning { IfOk result (λ v. Reported sheet.now v.items) }
{
    let mut out = Vec::new(heap);
    if let Err(stop) = run_sheet(sheet, &mut out) {
        push_stop(&mut out, stop)?;
    }
    Ok(out)
}
