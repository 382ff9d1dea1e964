// Why a call is refused: one function for each call, with its causes in order.
ghost use Rattle.std.specs.Prelude.{◌≡◌, ◌≤◌, ◌∷◌, length, IfOk, None};
ghost use Rattle.algebra.specs.Term.{place as place_of};
ghost use Rattle.term.specs.Search.{first_place, found};
ghost use Rattle.book.specs.Judge.{granted, unfit, judge_on, judge_rule, judge_strike, judge_check, judge_pairs, judge_form, judge_cofactors, judge_table, degrees as degrees_of, missing};
ghost use Rattle.book.specs.Ledger.{edge};
ghost use Rattle.book.specs.Kept.{ledger, terms_of, rows_of, border_in};

use crate::book::Book;
use crate::phase::Event;
use crate::refusal::Refusal;
use crate::search::first_place;
use algebra::{Entry, Term};
use field::Field;
use term::{degree, in_variables, zero_past};

// The place of the first code not below the order, the leading code first.
fn unfit_place(order: u16, k: u16, row: &[u16]) -> Option<usize>
    ensures { result ≡ found (first_place (unfit order) (k ∷ row.now)) }
{
    if k >= order {
        return Some(1);
    }
    first_place(row, |c| *c >= order).map(|place| place + 1)
}

// The sum of the degrees of the terms: at most that of 64 pairs of degree 24.
fn degrees(p: &[(u16, Term)]) -> usize
    requires { degrees_of p.now ≤ 1536 }
    ensures { result ≡ degrees_of p.now }
{
    p.iter().map(|x| degree(&x.1)).sum()
}

impl<F: Field> Book<F> {
    // The place of a border term. The lookup asks first whether the term is in S, and then goes along the border.
    fn border_place(&self, e: &Term) -> Option<usize>
        ensures { result ≡ found (place_of e.now (border_in self.now.contents.phase self.now.contents.basis.variables (terms_of self.now.contents))) }
    {
        if self.contents.basis.terms.has(e) {
            return None;
        }
        self.contents.border.terms.place(e)
    }

    // A plain place, here and below: a type that knows it to be on the border would lend the book, which the caller then writes.
    fn judge_border(&self, e: &Term) -> Result<usize, Refusal>
        ensures value { result ≡ granted (judge_on self.now.contents.basis.variables (border_in self.now.contents.phase self.now.contents.basis.variables (terms_of self.now.contents)) e.now None) (place_of e.now (border_in self.now.contents.phase self.now.contents.basis.variables (terms_of self.now.contents))) }
        ensures bound { IfOk result (λ place. (1 ≤ place) × (place ≤ length self.now.contents.border.terms)) }
    {
        if !zero_past(e, self.contents.basis.variables) {
            return Err(Refusal::ExponentPastVariables(1));
        }
        self.border_place(e).ok_or(Refusal::NotOnBorder)
    }

    // The place of the border term that the rule is for.
    pub(crate) fn judge_rule(&self, e: &Term, k: u16, row: &[u16]) -> Result<usize, Refusal>
        ensures value { result ≡ granted (judge_rule (F.Field.meaning self.now.field).order (ledger self.now.contents) e.now k row.now) (place_of e.now (edge (ledger self.now.contents))) }
        ensures bound { IfOk result (λ place. (1 ≤ place) × (place ≤ length self.now.contents.border.terms)) }
    {
        self.admit(Event::GiveRule)?;
        let place = self.judge_border(e)?;
        if row.len() != self.contents.basis.terms.len() {
            return Err(Refusal::WrongLength);
        }
        if let Some(unfit) = unfit_place(self.field.order(), k, row) {
            return Err(Refusal::CodeOutOfRange(unfit));
        }
        if k == 0 {
            return Err(Refusal::ZeroLeadingCode);
        }
        Ok(place)
    }

    pub(crate) fn judge_strike(&self, e: &Term) -> Result<usize, Refusal>
        ensures value { result ≡ granted (judge_strike (ledger self.now.contents) e.now) (place_of e.now (edge (ledger self.now.contents))) }
        ensures bound { IfOk result (λ place. (1 ≤ place) × (place ≤ length self.now.contents.border.terms)) }
    {
        self.admit(Event::Strike)?;
        let place = self.judge_border(e)?;
        if !self.contents.rules.has(place) {
            return Err(Refusal::RuleMissing(place));
        }
        Ok(place)
    }

    // The place of the first border term without a rule.
    fn missing_place(&self) -> Option<usize>
        ensures { result ≡ found (first_place missing (rows_of self.now.contents)) }
    {
        self.contents
            .rules
            .first_missing(self.contents.border.terms.len())
    }

    pub(crate) fn judge_check(&self, row: &[u16], slots: &[Entry]) -> Result<(), Refusal>
        ensures { result ≡ granted (judge_check (ledger self.now.contents) row.now slots.now) tt }
    {
        self.admit(Event::Check)?;
        let size = self.contents.basis.terms.len();
        if row.len() != size {
            return Err(Refusal::WrongLength);
        }
        if let Some(missing) = self.missing_place() {
            return Err(Refusal::RuleMissing(missing));
        }
        if slots.len() < 2 * size + 2 {
            return Err(Refusal::EntriesTooShort);
        }
        Ok(())
    }

    fn judge_polynomial(&self, p: &[(u16, Term)], size: usize) -> Result<(), Refusal>
        ensures { result ≡ granted (judge_pairs (F.Field.meaning self.now.field).order (ledger self.now.contents) p.now size None) tt }
    {
        let variables = self.contents.basis.variables;
        if let Some(past) = first_place(p, |x| !in_variables(&x.1, variables)) {
            return Err(Refusal::ExponentPastVariables(past));
        }
        if size != self.contents.basis.terms.len() {
            return Err(Refusal::WrongLength);
        }
        let order = self.field.order();
        if let Some(unfit) = first_place(p, |x| x.0 >= order) {
            return Err(Refusal::CodeOutOfRange(unfit));
        }
        if p.len() > 64 {
            return Err(Refusal::TooManyPairs);
        }
        if let Some(high) = first_place(p, |x| degree(&x.1) > 24) {
            return Err(Refusal::DegreeTooHigh(high));
        }
        Ok(())
    }

    pub(crate) fn judge_form(&self, p: &[(u16, Term)], row: &[u16]) -> Result<(), Refusal>
        ensures { result ≡ granted (judge_form (F.Field.meaning self.now.field).order (ledger self.now.contents) p.now row.now) tt }
    {
        self.admit(Event::Form)?;
        self.judge_polynomial(p, row.len())
    }

    pub(crate) fn judge_cofactors(
        &self,
        p: &[(u16, Term)],
        row: &[u16],
        slots: &[Entry],
    ) -> Result<(), Refusal>
        ensures { result ≡ granted (judge_cofactors (F.Field.meaning self.now.field).order (ledger self.now.contents) p.now row.now slots.now) tt }
    {
        self.admit(Event::Cofactors)?;
        self.judge_polynomial(p, row.len())?;
        if slots.len() < self.contents.basis.terms.len() * degrees(p) {
            return Err(Refusal::EntriesTooShort);
        }
        Ok(())
    }

    pub(crate) fn judge_table(&self, i: u16, table: &[u16]) -> Result<(), Refusal>
        ensures { result ≡ granted (judge_table (ledger self.now.contents) i table.now) tt }
    {
        self.admit(Event::Table)?;
        let size = self.contents.basis.terms.len();
        if table.len() != size * size {
            return Err(Refusal::WrongLength);
        }
        if i < 1 || i as usize > self.contents.basis.variables {
            return Err(Refusal::NoSuchVariable);
        }
        Ok(())
    }
}
