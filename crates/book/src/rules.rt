// Which border places have a rule.
ghost use Rattle.std.specs.Prelude.{◌≡◌, ℕ, ◌≤◌, ◌++◌, length, take, drop, replicate, is_some, None};
ghost use Rattle.algebra.specs.Border.{at_place};
ghost use Rattle.term.specs.Search.{first_place, found};
ghost use Rattle.book.specs.Judge.{missing};
ghost use Rattle.book.specs.Kept.{kept_rows};

use crate::contents::Rules;
use crate::search::first_place;

impl Rules {
    // Strikes the rules of the first `size` places; the others have no border term, and cost a small book nothing.
    pub(crate) fn clear(&mut self, size: usize)
        requires { size ≤ 256 }
        ensures { self.new.rows ≡ replicate size None ++ drop size self.old.rows }
    {
        self.rows[..size].fill(None);
    }

    // The first of `size` places without a rule, counted from 1.
    pub(crate) fn first_missing(&self, size: usize) -> Option<usize>
        requires { size ≤ 256 }
        ensures { (D : ℕ) → result ≡ found (first_place missing (kept_rows D (take size self.now.rows))) }
    {
        first_place(&self.rows[0..size], |row| row.is_none())
    }

    // Whether a place, counted from 1, has a rule.
    pub(crate) fn has(&self, place: usize) -> bool
        requires { 1 ≤ place }
        ensures { (D m : ℕ) → place ≤ m → result ≡ is_some (at_place place (kept_rows D (take m self.now.rows)) None) }
    {
        place <= 256 && self.rows[place - 1].is_some()
    }
}
