// The calls that answer: check, form, cofactors and table. Each takes the slices that it writes one by one, as its callers lend them.
ghost use Rattle.std.specs.Prelude.{◌≡◌, ◌-◌, true, [], length};
ghost use Rattle.field.specs.Arithmetic.{ring};
ghost use Rattle.algebra.specs.Clash.{first_clash};
ghost use Rattle.algebra.specs.Walk.{normal_form, cofactors as cofactor_entries, all_zero};
ghost use Rattle.book.specs.Judge.{judge_check, judge_form, judge_cofactors, judge_table, granted, on_grant};
ghost use Rattle.book.specs.Ledger.{system};
ghost use Rattle.book.specs.Effects.{checked, clash_row, clash_entries, verdict, written, yes_no, table_rows};
ghost use Rattle.book.specs.Promise.{CheckMeans, Formed, CofactorsMean};
ghost use Rattle.book.specs.Kept.{ledger, ready, terms_of};

use crate::book::{Book, Complete};
use crate::phase::Phase;
use crate::refusal::Refusal;
use crate::verdict::Verdict;
use algebra::{Entry, Term};
use field::Field;
use row::{clear, is_zero};

impl<F: Field> Book<F> {
    fn complete(&self) -> Complete<'_, F>
        requires { ready self.now.contents ≡ true }
        ensures field { result.field.now ≡ self.now.field }
        ensures contents { result.contents.now ≡ self.now.contents }
    {
        Complete {
            field: &self.field,
            contents: &self.contents,
        }
    }

    // Decides whether the rules are consistent. At the first clash it writes the row MaMb(t) − MbMa(t) and the entries that add up to it.
    pub fn check(&mut self, row: &mut [u16], slots: &mut [Entry]) -> Result<Verdict, Refusal>
        ensures answer { result ≡ granted (judge_check (ledger self.old.contents) row.old slots.old) (verdict (ring (F.Field.meaning self.old.field)) (system (ledger self.old.contents)) (first_clash (ring (F.Field.meaning self.old.field)) (system (ledger self.old.contents)))) }
        ensures after { ledger self.new.contents ≡ on_grant (judge_check (ledger self.old.contents) row.old slots.old) (checked (ring (F.Field.meaning self.old.field)) (ledger self.old.contents)) (ledger self.old.contents) }
        ensures row { row.new ≡ on_grant (judge_check (ledger self.old.contents) row.old slots.old) (clash_row (ring (F.Field.meaning self.old.field)) (system (ledger self.old.contents)) (first_clash (ring (F.Field.meaning self.old.field)) (system (ledger self.old.contents)))) row.old }
        ensures slots { slots.new ≡ on_grant (judge_check (ledger self.old.contents) row.old slots.old) (written (clash_entries (ring (F.Field.meaning self.old.field)) (system (ledger self.old.contents)) (first_clash (ring (F.Field.meaning self.old.field)) (system (ledger self.old.contents)))) slots.old) slots.old }
        ensures field { self.new.field ≡ self.old.field }
        ensures meaning { CheckMeans (ring (F.Field.meaning self.old.field)) (system (ledger self.old.contents)) result row.new slots.new }
    {
        self.judge_check(row, slots)?;
        match self.complete().first_clash() {
            None => {
                clear(row);
                self.contents.phase = Phase::Sound;
                Ok(Verdict::Consistent)
            }
            Some(clash) => {
                let entries = self.complete().write_clash(clash, row, slots);
                self.contents.phase = Phase::Clash;
                Ok(Verdict::Clashes {
                    term: clash.term + 1,
                    a: clash.a + 1,
                    b: clash.b + 1,
                    entries,
                })
            }
        }
    }

    // Writes the normal form of a polynomial, and answers whether it is zero.
    pub fn form(&self, p: &[(u16, Term)], row: &mut [u16]) -> Result<bool, Refusal>
        ensures answer { result ≡ granted (judge_form (F.Field.meaning self.now.field).order (ledger self.now.contents) p.now row.old) (all_zero (normal_form (ring (F.Field.meaning self.now.field)) (system (ledger self.now.contents)) p.now)) }
        ensures row { row.new ≡ on_grant (judge_form (F.Field.meaning self.now.field).order (ledger self.now.contents) p.now row.old) (normal_form (ring (F.Field.meaning self.now.field)) (system (ledger self.now.contents)) p.now) row.old }
        ensures meaning { Formed (ring (F.Field.meaning self.now.field)) (system (ledger self.now.contents)) p.now result row.new }
    {
        self.judge_form(p, row)?;
        self.complete().write_form(p, row, &mut []);
        Ok(is_zero(row))
    }

    // The same, and the entries that account for the difference; answers their number, and 1 for yes or 0 for no.
    // A pair of plain numbers: programs take the count and the yes or no as they are.
    pub fn cofactors(
        &self,
        p: &[(u16, Term)],
        row: &mut [u16],
        slots: &mut [Entry],
    ) -> Result<(usize, u8), Refusal>
        ensures answer { result ≡ granted (judge_cofactors (F.Field.meaning self.now.field).order (ledger self.now.contents) p.now row.old slots.old) (length (cofactor_entries (ring (F.Field.meaning self.now.field)) (system (ledger self.now.contents)) p.now), yes_no (all_zero (normal_form (ring (F.Field.meaning self.now.field)) (system (ledger self.now.contents)) p.now))) }
        ensures row { row.new ≡ on_grant (judge_cofactors (F.Field.meaning self.now.field).order (ledger self.now.contents) p.now row.old slots.old) (normal_form (ring (F.Field.meaning self.now.field)) (system (ledger self.now.contents)) p.now) row.old }
        ensures slots { slots.new ≡ on_grant (judge_cofactors (F.Field.meaning self.now.field).order (ledger self.now.contents) p.now row.old slots.old) (written (cofactor_entries (ring (F.Field.meaning self.now.field)) (system (ledger self.now.contents)) p.now) slots.old) slots.old }
        ensures meaning { CofactorsMean (ring (F.Field.meaning self.now.field)) (system (ledger self.now.contents)) p.now result row.new slots.new }
    {
        self.judge_cofactors(p, row, slots)?;
        let count = self.complete().write_form(p, row, slots);
        Ok((count, if is_zero(row) { 1 } else { 0 }))
    }

    // Writes the rows of variable `i`, counted from 1, times each term of S.
    pub fn table(&self, i: u16, table: &mut [u16]) -> Result<(), Refusal>
        ensures answer { result ≡ granted (judge_table (ledger self.now.contents) i table.old) tt }
        ensures table { table.new ≡ on_grant (judge_table (ledger self.now.contents) i table.old) (table_rows (ring (F.Field.meaning self.now.field)) (system (ledger self.now.contents)) (i - 1) (terms_of self.now.contents)) table.old }
    {
        self.judge_table(i, table)?;
        self.complete().write_table(i as usize - 1, table);
        Ok(())
    }
}
