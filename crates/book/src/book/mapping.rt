// The maps of the variables on rows of a closed book that lacks no rule. A row for one call is an array on the stack, cut to the size of S: the library has no heap.
ghost use Rattle.std.specs.Prelude.{◌≡◌, ◌<◌, [], length, slice_index_or};
ghost use Rattle.field.specs.Arithmetic.{ring};
ghost use Rattle.algebra.specs.Walk.{unit as unit_row, mapped};
ghost use Rattle.algebra.specs.Clash.{commutator as commutator_row};
ghost use Rattle.book.specs.Ledger.{system};
ghost use Rattle.book.specs.Kept.{ledger, terms_of};

use crate::book::Complete;
use field::Field;
use row::{Maps, clear, subtract};

impl<F: Field> Complete<'_, F> {
    pub(crate) fn maps(&self) -> Maps<'_, F>
        ensures field { result.field.now ≡ self.now.field.now }
        ensures rows { result.rows.now ≡ self.now.contents.now.rules.rows }
    {
        Maps {
            field: self.field,
            rows: &self.contents.rules.rows,
        }
    }

    // Writes the row with 1 at term `j` of S, counted from 0, and 0 elsewhere.
    pub(crate) fn unit(&self, j: usize, row: &mut [u16])
        requires { (j < length (terms_of self.now.contents.now)) × (length row.old ≡ length (terms_of self.now.contents.now)) }
        ensures { row.new ≡ unit_row (terms_of self.now.contents.now) (slice_index_or (terms_of self.now.contents.now) j []) }
    {
        clear(row);
        row[j] = 1;
    }

    // Maps a row by variable `i`, counted from 0.
    pub(crate) fn map(&self, i: usize, row: &mut [u16])
        requires { (i < self.now.contents.now.basis.variables) × (length row.old ≡ length (terms_of self.now.contents.now)) }
        ensures { row.new ≡ mapped (ring (F.Field.meaning self.now.field.now)) (system (ledger self.now.contents.now)) i row.old }
    {
        let columns = &self.contents.border.leads.columns;
        self.maps().advance(&columns[i], row);
    }

    // Writes MaMb(t) − MbMa(t) for term `j` of S.
    pub(crate) fn commutator(&self, a: usize, b: usize, j: usize, row: &mut [u16])
        requires { (a < self.now.contents.now.basis.variables) × ((b < self.now.contents.now.basis.variables) × ((j < length (terms_of self.now.contents.now)) × (length row.old ≡ length (terms_of self.now.contents.now)))) }
        ensures { row.new ≡ commutator_row (ring (F.Field.meaning self.now.field.now)) (system (ledger self.now.contents.now)) a b (slice_index_or (terms_of self.now.contents.now) j []) }
    {
        self.unit(j, row);
        self.map(b, row);
        self.map(a, row);
        let mut other = [0u16; 32];
        let other = &mut other[0..self.contents.basis.terms.len()];
        self.unit(j, other);
        self.map(a, other);
        self.map(b, other);
        subtract(self.field, row, other);
    }
}
