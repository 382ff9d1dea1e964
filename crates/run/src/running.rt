// One call on a book, and a list of calls on a new book.
ghost use Rattle.std.specs.Prelude.{◌≡◌};
ghost use Rattle.book.specs.Kept.{ledger};
ghost use Rattle.book.specs.Ledger.{new_ledger};
ghost use Rattle.run.specs.Runs.{run as run_of};
ghost use Rattle.run.specs.Lines.{steps_of, noted, listed, Replayed, Told};
ghost use Rattle.run.specs.Calls.{step_of, answer as answer_of, next, finish as finish_of};

use crate::call::{Answer, Call, Line};
use book::{Book, Refusal};
use field::Field;

// Runs one call on a book: its answer, what the book holds then, and its slices are those that the ledger gives.
#[tactic(auto, using(crate::proofs::Renaming::on_grant_same))]
pub fn perform<F: Field>(book: &mut Book<F>, call: &mut Call) -> Result<Answer, Refusal>
    ensures answer { result ≡ answer_of (F.Field.meaning book.old.field) (ledger book.old.contents) (step_of call.old) }
    ensures after { ledger book.new.contents ≡ next (F.Field.meaning book.old.field) (ledger book.old.contents) (step_of call.old) }
    ensures finish { step_of call.new ≡ finish_of (F.Field.meaning book.old.field) (ledger book.old.contents) (step_of call.old) }
    ensures field { book.new.field ≡ book.old.field }
{
    match call {
        Call::Lay(n) => book.lay(*n).map(|()| Answer::Done),
        Call::Term(t) => book.term(*t).map(|()| Answer::Done),
        Call::Close => book.close().map(Answer::Border),
        Call::Rule(rule) => book
            .rule(rule.term, rule.lead, &rule.row)
            .map(|()| Answer::Done),
        Call::Strike(e) => book.strike(*e).map(|()| Answer::Done),
        Call::Check(row, slots) => book.check(row, slots).map(Answer::Checked),
        Call::Form(p, row) => book.form(p, row).map(Answer::Formed),
        Call::Cofactors(p, row, slots) => book
            .cofactors(p, row, slots)
            .map(|(count, zero)| Answer::Counted(count, zero)),
        Call::Table(i, rows) => book.table(*i, rows).map(|()| Answer::Done),
    }
}

// Runs a list of calls on a book just made over the field, and notes each answer beside its call.
pub fn replay<F: Field + Drop>(field: F, lines: &mut [Line])
    ensures run { noted lines.new ≡ listed (run_of (F.Field.meaning field) new_ledger (steps_of lines.old)) }
    ensures law { Replayed (F.Field.meaning field) lines.old lines.new }
    ensures told { Told (F.Field.meaning field) lines.old lines.new }
{
    let mut book = Book::new(field);
    for line in lines.iter_mut() {
        line.answer = Some(perform(&mut book, &mut line.call));
    }
}
