ghost use Rattle.std.specs.Prelude.{◌≡◌, ◌≤◌, true, length, None};
ghost use Rattle.book.specs.Judge.{judge_lay, judge_term, judge_close, granted, on_grant, refuse_phase};
ghost use Rattle.book.specs.Ledger.{new_ledger, edge};
ghost use Rattle.book.specs.Effects.{laid, with_term, closed};
ghost use Rattle.book.specs.Kept.{ledger};

use crate::book::Book;
use crate::contents::{Connected, Contents};
use crate::phase::{Event, Phase};
use crate::refusal::Refusal;
use algebra::Term;
use field::Field;

impl<F: Field> Book<F> {
    // A new book over a field: open, with one variable and no terms.
    pub fn new(field: F) -> Book<F>
        ensures contents { ledger result.contents ≡ new_ledger }
        ensures field { result.field ≡ field }
    {
        Book {
            field,
            contents: Contents::new(),
        }
    }

    // The number of terms of S, which is how many codes a row has.
    pub fn size(&self) -> usize
        ensures value { result ≡ length (ledger self.now.contents).terms }
        ensures few { result ≤ 32 }
    {
        self.contents.basis.terms.len()
    }

    // What a call does depends on the phase and the call together.
    pub(crate) fn admit(&self, event: Event) -> Result<(), Refusal>
        ensures { result ≡ granted (refuse_phase (ledger self.now.contents) event None) tt }
    {
        match (self.contents.phase, event) {
            (_, Event::Lay) => Ok(()),
            (Phase::Open, Event::AddTerm | Event::Close) => Ok(()),
            (
                Phase::Closed | Phase::Sound | Phase::Clash,
                Event::GiveRule | Event::Strike | Event::Check,
            ) => Ok(()),
            (Phase::Sound, Event::Form | Event::Cofactors | Event::Table) => Ok(()),
            _ => Err(Refusal::WrongPhase),
        }
    }

    // Empties the book and opens it with another number of variables.
    pub fn lay(&mut self, variables: u16) -> Result<(), Refusal>
        ensures answer { result ≡ granted (judge_lay variables) tt }
        ensures after { ledger self.new.contents ≡ on_grant (judge_lay variables) (laid variables) (ledger self.old.contents) }
        ensures field { self.new.field ≡ self.old.field }
    {
        if variables < 1 || variables > 8 {
            return Err(Refusal::VariablesOutOfRange);
        }
        self.contents.basis.variables = variables as usize;
        self.contents.basis.terms.clear();
        self.contents.border.terms.clear();
        self.contents.phase = Phase::Open;
        Ok(())
    }

    fn judge_term(&self, t: &Term) -> Result<(), Refusal>
        ensures { result ≡ granted (judge_term (ledger self.now.contents) t.now) tt }
    {
        self.admit(Event::AddTerm)?;
        self.contents.basis.judge(t)
    }

    // Adds a term to S.
    pub fn term(&mut self, t: Term) -> Result<(), Refusal>
        ensures answer { result ≡ granted (judge_term (ledger self.old.contents) t) tt }
        ensures after { ledger self.new.contents ≡ on_grant (judge_term (ledger self.old.contents) t) (with_term (ledger self.old.contents) t) (ledger self.old.contents) }
        ensures field { self.new.field ≡ self.old.field }
    {
        self.judge_term(&t)?;
        self.contents.basis.terms.push(t);
        Ok(())
    }

    fn judge_close(&self) -> Result<(), Refusal>
        ensures { result ≡ granted (judge_close (ledger self.now.contents)) tt }
    {
        self.admit(Event::Close)?;
        if self.contents.basis.terms.as_slice().is_empty() {
            return Err(Refusal::NoTerms);
        }
        Ok(())
    }

    // Lays the border, and answers how many terms it has.
    pub fn close(&mut self) -> Result<usize, Refusal>
        ensures answer { result ≡ granted (judge_close (ledger self.old.contents)) (length (edge (ledger self.old.contents))) }
        ensures after { ledger self.new.contents ≡ on_grant (judge_close (ledger self.old.contents)) (closed (ledger self.old.contents)) (ledger self.old.contents) }
        ensures field { self.new.field ≡ self.old.field }
    {
        self.judge_close()?;
        let set = Connected {
            basis: &self.contents.basis,
        };
        self.contents.border.lay(&set);
        let count = self.contents.border.terms.len();
        self.contents.rules.clear(count);
        self.contents.phase = Phase::Closed;
        Ok(count)
    }
}
