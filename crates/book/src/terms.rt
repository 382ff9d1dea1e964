// Terms in order, in memory that is laid out from the start: a book allocates nothing. Contracts see the list.
ghost use Rattle.std.specs.Prelude.{◌≡◌, ◌<◌, ◌≤◌, [], ◌∷◌, ◌++◌, length, IfSome};
ghost use Rattle.algebra.specs.Term.{has, place as place_of};
ghost use Rattle.term.specs.Search.{found};

use algebra::Term;
use std::marker::Model;

// At most `N` terms.
#[derive(Drop)]
pub struct Terms<const N: usize> {
    items: [Term; N],
    size: usize,
}

impl<const N: usize> Model for Terms<N> {
    ghost use Rattle.std.specs.Prelude.{ℕ, ◌≤◌, List, take};

    ghost Value = { List (List ℕ) };

    ghost view = { λ s. take s.size s.items };

    ghost invariant = { λ s. s.size ≤ N };
}

impl<const N: usize> Terms<N> {
    pub(crate) fn new() -> Self
        ensures { result ≡ [] }
    {
        Terms {
            items: [[0; 8]; N],
            size: 0,
        }
    }

    pub(crate) fn as_slice(&self) -> &[Term]
        ensures value { result.now ≡ self.now }
        ensures few { length self.now ≤ N }
    {
        let items: &[Term] = &self.items;
        &items[0..self.size]
    }

    pub(crate) fn len(&self) -> usize
        ensures value { result ≡ length self.now }
        ensures few { result ≤ N }
    {
        self.size
    }

    // The place of a term, counted from 1.
    pub(crate) fn place(&self, t: &Term) -> Option<usize>
        ensures value { result ≡ found (place_of t.now self.now) }
        ensures bound { IfSome result (λ k. k ≤ N) }
    {
        term::place(self.as_slice(), t)
    }

    pub(crate) fn has(&self, t: &Term) -> bool
        ensures { result ≡ has t.now self.now }
    {
        self.place(t).is_some()
    }

    pub(crate) fn clear(&mut self)
        ensures { self.new ≡ [] }
    {
        self.size = 0;
    }

    pub(crate) fn push(&mut self, t: Term)
        requires { length self.old < N }
        ensures { self.new ≡ self.old ++ t ∷ [] }
    {
        self.items[self.size] = t;
        self.size += 1;
    }
}
