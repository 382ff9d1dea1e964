// Normal forms, cofactors and tables of a sound book.
ghost use Rattle.std.specs.Prelude.{◌≡◌, ◌*◌, ◌<◌, ◌≤◌, [], ◌∷◌, length};
ghost use Rattle.field.specs.Arithmetic.{ring};
ghost use Rattle.algebra.specs.Polynomial.{Over};
ghost use Rattle.algebra.specs.Walk.{normal_form, cofactors as cofactor_entries};
ghost use Rattle.row.specs.Listing.{listing, listed_all};
ghost use Rattle.book.specs.Ledger.{system};
ghost use Rattle.book.specs.Effects.{table_rows};
ghost use Rattle.book.specs.Kept.{ledger, terms_of};

use crate::book::Complete;
use algebra::{Entry, Term};
use field::Field;
use row::{Slots, add_multiple, clear};

impl<F: Field> Complete<'_, F> {
    // Writes the normal form of a polynomial into the row, and lists its cofactors while there are slots.
    pub(crate) fn write_form(
        &self,
        p: &[(u16, Term)],
        row: &mut [u16],
        slots: &mut [Entry],
    ) -> usize
        requires { (Over self.now.contents.now.basis.variables p.now) × (length row.old ≡ length (terms_of self.now.contents.now)) }
        ensures row { row.new ≡ normal_form (ring (F.Field.meaning self.now.field.now)) (system (ledger self.now.contents.now)) p.now }
        ensures listed { listing slots.new result ≡ listed_all (listing slots.old 0) (cofactor_entries (ring (F.Field.meaning self.now.field.now)) (system (ledger self.now.contents.now)) p.now) }
    {
        clear(row);
        let size = self.contents.basis.terms.len();
        let maps = self.maps();
        let mut slots = Slots { slots, count: 0 };
        for (code, t) in p {
            let mut start = [0u16; 32]; // on the stack: the library has no heap
            start[0] = *code;
            let last = &mut start[0..size];
            maps.walk(&self.contents.border.leads.columns, last, *t, &mut slots);
            add_multiple(self.field, row, 1, last);
        }
        slots.count
    }

    // Writes the rows of variable `i`, counted from 0, times each term.
    pub(crate) fn write_table(&self, i: usize, table: &mut [u16])
        requires { (i < self.now.contents.now.basis.variables) × (length table.old ≡ length (terms_of self.now.contents.now) * length (terms_of self.now.contents.now)) }
        ensures { table.new ≡ table_rows (ring (F.Field.meaning self.now.field.now)) (system (ledger self.now.contents.now)) i (terms_of self.now.contents.now) }
    {
        let size = self.contents.basis.terms.len();
        // By index: after a loop over `chunks_mut` a proof knows no code of the table.
        for j in 0..size {
            let part = &mut table[j * size..(j + 1) * size];
            self.unit(j, part);
            self.map(i, part);
        }
    }
}
