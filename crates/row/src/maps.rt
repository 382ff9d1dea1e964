ghost use Rattle.std.specs.Prelude.{◌≡◌, [], map};
ghost use Rattle.field.specs.Arithmetic.{ring};
ghost use Rattle.algebra.specs.Term.{word};
ghost use Rattle.algebra.specs.Border.{at_place};
ghost use Rattle.row.specs.Leads.{add_led, map_led, advanced};
ghost use Rattle.row.specs.Listing.{listing, listed_all, walk_row, walk_entries};

use crate::lead::Lead;
use crate::slots::Slots;
use crate::stored::StoredRow;
use crate::sums::{add_at, add_multiple};
use algebra::Term;
use field::Field;
use term::first_variable;

// The maps of the variables on rows over a field, by the rows of the border terms, as they are stored; a term without a row counts as 0.
// The leads come as arguments: a map has those of one variable, a walk those of all.
#[derive(Drop)]
pub struct Maps<'a, F: Field, R: StoredRow = Option<[u16; 32]>> {
    pub field: &'a F,
    pub rows: &'a [R],
}

impl<F: Field, R: StoredRow> Maps<'_, F, R> {
    // The row at a place counted from 1. Empty and no Option where there is none: it is added as it is, and counts as 0.
    fn row(&self, place: usize) -> &[u16]
        ensures { result.now ≡ at_place place (map R.StoredRow.codes self.now.rows.now) [] }
    {
        if place < 1 || self.rows.len() < place {
            return &[];
        }
        self.rows[place - 1].codes()
    }

    // Adds `c` times what a lead stands for.
    fn add_led(&self, out: &mut [u16], c: u16, lead: Lead)
        ensures { out.new ≡ add_led (ring (F.Field.meaning self.now.field.now)) (map R.StoredRow.codes self.now.rows.now) out.old c lead }
    {
        match lead {
            Lead::Inside(place) => add_at(self.field, out, place as usize, c),
            Lead::OnBorder(place) => add_multiple(self.field, out, c, self.row(place as usize)),
        }
    }

    // Adds the image of `row` under the map of a variable to `out`; codes that are 0 cost nothing.
    fn map_onto(&self, leads: &[Lead], row: &[u16], out: &mut [u16])
        ensures { out.new ≡ map_led (ring (F.Field.meaning self.now.field.now)) (map R.StoredRow.codes self.now.rows.now) out.old row.now leads.now }
    {
        for (c, lead) in row.iter().zip(leads) {
            if *c != 0 {
                self.add_led(out, *c, *lead);
            }
        }
    }

    // Maps a row of at most 32 codes in place.
    pub fn advance(&self, leads: &[Lead], row: &mut [u16])
        ensures { row.new ≡ advanced (ring (F.Field.meaning self.now.field.now)) (map R.StoredRow.codes self.now.rows.now) leads.now row.old }
    {
        let size = row.len();
        if size <= 32 {
            let mut next = [0u16; 32]; // on the stack: the library has no heap
            self.map_onto(leads, row, &mut next[0..size]);
            row.copy_from_slice(&next[0..size]);
        }
    }

    // Walks a row by the variables of a term, the first variable first, and lists the entries of every step.
    pub fn walk(&self, leads: &[[Lead; 32]; 8], row: &mut [u16], t: Term, slots: &mut Slots<'_>)
        ensures last { row.new ≡ walk_row (ring (F.Field.meaning self.now.field.now)) (map R.StoredRow.codes self.now.rows.now) leads.now row.old (word t) }
        ensures same_reference { slots.new.slots.ghost_name ≡ slots.old.slots.ghost_name }
        ensures listed { listing slots.new.slots.now slots.new.count ≡ listed_all (listing slots.old.slots.now slots.old.count) (walk_entries (ring (F.Field.meaning self.now.field.now)) (map R.StoredRow.codes self.now.rows.now) leads.now row.old (word t)) }
    {
        let mut rest = t;
        while let Some(first) = first_variable(rest) {
            let (i, quotient) = first;
            rest = quotient;
            slots.list_step(rest, row, &leads[i]);
            self.advance(&leads[i], row);
        }
    }
}
