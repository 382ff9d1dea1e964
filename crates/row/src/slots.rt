ghost use Rattle.std.specs.Prelude.{◌≡◌};
ghost use Rattle.row.specs.Listing.{listing, listed_one, listed_all, step_led};

use crate::lead::Lead;
use algebra::{Entry, Term};

// Slots that a caller lends for entries, of which the first `count` are taken. No Vec: the library has no heap.
// That the slots stay those of the caller (`same_reference`) each function that is lent them has to say, `Maps::walk` too: Rattle has no other place for it.
#[derive(Drop)]
pub struct Slots<'a> {
    pub slots: &'a mut [Entry],
    pub count: usize,
}

impl Slots<'_> {
    // Writes one entry into the next slot, where there is one.
    pub fn push(&mut self, entry: Entry)
        ensures same_reference { self.new.slots.ghost_name ≡ self.old.slots.ghost_name }
        ensures listed { listing self.new.slots.now self.new.count ≡ listed_one (listing self.old.slots.now self.old.count) entry }
    {
        let next = self.count;
        if next < self.slots.len() {
            self.slots[next] = entry;
            self.count = next + 1;
        }
    }

    // Lists the entries of a step: one for each nonzero code that leads to the border.
    pub fn list_step(&mut self, multiplier: Term, row: &[u16], leads: &[Lead])
        ensures same_reference { self.new.slots.ghost_name ≡ self.old.slots.ghost_name }
        ensures listed { listing self.new.slots.now self.new.count ≡ listed_all (listing self.old.slots.now self.old.count) (step_led multiplier row.now leads.now) }
    {
        for (c, lead) in row.iter().zip(leads) {
            if let (1.., Lead::OnBorder(place)) = (*c, *lead) {
                self.push(Entry {
                    code: *c,
                    multiplier,
                    place,
                });
            }
        }
    }
}
