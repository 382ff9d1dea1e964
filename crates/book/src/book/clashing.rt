// The search for the first clash, and its witness.
ghost use Rattle.std.specs.Prelude.{◌≡◌, ◌+◌, ◌-◌, ◌*◌, ◌<◌, ◌≤◌, [], ◌∷◌, length, slice_index_or};
ghost use Rattle.field.specs.Arithmetic.{ring};
ghost use Rattle.algebra.specs.Walk.{unit as unit_row, entries};
ghost use Rattle.algebra.specs.Clash.{commutator as commutator_row, commutator_entries, negative_entries, pairs_with, pairs, clash_at as clash_of, first_clash};
ghost use Rattle.row.specs.Listing.{listing, listed_all};
ghost use Rattle.book.specs.Ledger.{system};
ghost use Rattle.book.specs.Effects.{written};
ghost use Rattle.book.specs.Kept.{ledger, terms_of};

use crate::book::Complete;
use algebra::{Clash, Entry};
use field::Field;
use row::{Slots, is_zero};
use term::raised;

// Negates the code of every entry.
fn negate<F: Field>(f: &F, slots: &mut [Entry])
    ensures { slots.new ≡ negative_entries (ring (F.Field.meaning f.now)) slots.old }
{
    for entry in slots.iter_mut() {
        entry.code = f.negative(entry.code);
    }
}

impl<F: Field> Complete<'_, F> {
    // The searches below are loops: one row serves every turn, and of `find_map` the prover learns no equation.

    // The first b after a for which the maps of a and b do not commute at term `j`.
    fn clash_with(&self, j: usize, a: usize) -> Option<(usize, usize)>
        requires { (j < length (terms_of self.now.contents.now)) × (a < self.now.contents.now.basis.variables) }
        ensures { result ≡ clash_of (ring (F.Field.meaning self.now.field.now)) (system (ledger self.now.contents.now)) (slice_index_or (terms_of self.now.contents.now) j []) (pairs_with a (a + 1) (self.now.contents.now.basis.variables - (a + 1))) }
    {
        let mut row = [0u16; 32]; // on the stack: the library has no heap
        let row = &mut row[0..self.contents.basis.terms.len()];
        for b in a + 1..self.contents.basis.variables {
            self.commutator(a, b, j, row);
            if !is_zero(row) {
                return Some((a, b));
            }
        }
        None
    }

    // The first pair for which the maps do not commute at term `j`.
    fn clash_at(&self, j: usize) -> Option<(usize, usize)>
        requires { j < length (terms_of self.now.contents.now) }
        ensures { result ≡ clash_of (ring (F.Field.meaning self.now.field.now)) (system (ledger self.now.contents.now)) (slice_index_or (terms_of self.now.contents.now) j []) (pairs self.now.contents.now.basis.variables) }
    {
        for a in 0..self.contents.basis.variables {
            if let Some(pair) = self.clash_with(j, a) {
                return Some(pair);
            }
        }
        None
    }

    pub(crate) fn first_clash(&self) -> Option<Clash>
        ensures { result ≡ first_clash (ring (F.Field.meaning self.now.field.now)) (system (ledger self.now.contents.now)) }
    {
        for j in 0..self.contents.basis.terms.len() {
            if let Some((a, b)) = self.clash_at(j) {
                return Some(Clash { term: j, a, b });
            }
        }
        None
    }

    // Lists the entries of the walk of term `j` by two variables, one after the other.
    fn list_walk(&self, j: usize, first: usize, second: usize, slots: &mut Slots<'_>)
        requires { (j < length (terms_of self.now.contents.now)) × ((first < self.now.contents.now.basis.variables) × (second < self.now.contents.now.basis.variables)) }
        ensures same_reference { slots.new.slots.ghost_name ≡ slots.old.slots.ghost_name }
        ensures listed { listing slots.new.slots.now slots.new.count ≡ listed_all (listing slots.old.slots.now slots.old.count) (entries (ring (F.Field.meaning self.now.field.now)) (system (ledger self.now.contents.now)) (unit_row (terms_of self.now.contents.now) (slice_index_or (terms_of self.now.contents.now) j [])) (first ∷ second ∷ [])) }
    {
        let mut row = [0u16; 32]; // on the stack: the library has no heap
        let row = &mut row[0..self.contents.basis.terms.len()];
        self.unit(j, row);
        let leads = &self.contents.border.leads.columns;
        slots.list_step(raised([0; 8], second), row, &leads[first]);
        self.map(first, row);
        slots.list_step([0; 8], row, &leads[second]);
    }

    // Writes the row and the entries of a clash, and gives the number of entries.
    pub(crate) fn write_clash(&self, clash: Clash, row: &mut [u16], slots: &mut [Entry]) -> usize
        requires clash { (clash.term < length (terms_of self.now.contents.now)) × ((clash.a < self.now.contents.now.basis.variables) × (clash.b < self.now.contents.now.basis.variables)) }
        requires lengths { (length row.old ≡ length (terms_of self.now.contents.now)) × (2 * length (terms_of self.now.contents.now) + 2 ≤ length slots.old) }
        ensures row { row.new ≡ commutator_row (ring (F.Field.meaning self.now.field.now)) (system (ledger self.now.contents.now)) clash.a clash.b (slice_index_or (terms_of self.now.contents.now) clash.term []) }
        ensures slots { slots.new ≡ written (commutator_entries (ring (F.Field.meaning self.now.field.now)) (system (ledger self.now.contents.now)) clash.a clash.b (slice_index_or (terms_of self.now.contents.now) clash.term [])) slots.old }
        ensures count { result ≡ length (commutator_entries (ring (F.Field.meaning self.now.field.now)) (system (ledger self.now.contents.now)) clash.a clash.b (slice_index_or (terms_of self.now.contents.now) clash.term [])) }
    {
        self.commutator(clash.a, clash.b, clash.term, row);
        let mut slots = Slots { slots, count: 0 };
        self.list_walk(clash.term, clash.a, clash.b, &mut slots);
        let middle = slots.count;
        self.list_walk(clash.term, clash.b, clash.a, &mut slots);
        let end = slots.count;
        negate(self.field, &mut slots.slots[middle..end]);
        end
    }
}
