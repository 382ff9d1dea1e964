// The border of a closed set, and where each product of a variable and a term leads.
ghost use Rattle.std.specs.Prelude.{◌≡◌, ◌+◌, ◌<◌, ◌≤◌, true, [], ◌∷◌, length};
ghost use Rattle.algebra.specs.Term.{has};
ghost use Rattle.algebra.specs.Border.{border as border_terms, multiples_from};
ghost use Rattle.book.specs.Kept.{begins, led};
ghost use Rattle.book.specs.Laying.{extended};
ghost use Rattle.book.specs.Leading.{lead as lead_of, leads_of};

use crate::contents::{Basis, Border, Connected};
use algebra::Term;
use row::Lead;
use term::raised;

impl Border {
    // Lays the border of S and the leads of every variable.
    pub(crate) fn lay(&mut self, set: &Connected<'_>)
        ensures terms { self.new.terms ≡ border_terms set.now.basis.now.variables set.now.basis.now.terms }
        ensures leads { led set.now.basis.now.terms self.new.terms 0 set.now.basis.now.variables self.new.leads.columns ≡ true }
    {
        self.terms.clear();
        for t in set.basis.terms.as_slice() {
            self.lay_products(set, t);
        }
        // By the variable's number: `iter_mut` would lend the columns while the terms beside them are read, which the borrow check does not cover.
        for i in 0..set.basis.variables {
            self.leads.columns[i] = self.column(set, i);
        }
    }

    // Adds the products of the variables and a term of S that are new.
    fn lay_products(&mut self, set: &Connected<'_>, t: &Term)
        requires few { length set.now.basis.now.terms ≤ 32 }
        requires within { has t.now set.now.basis.now.terms ≡ true }
        requires room { length self.old.terms + set.now.basis.now.variables ≤ 256 }
        ensures terms { self.new.terms ≡ extended set.now.basis.now.terms self.old.terms (multiples_from 0 set.now.basis.now.variables t.now) }
        ensures bound { length self.new.terms ≤ length self.old.terms + set.now.basis.now.variables }
    {
        for i in 0..set.basis.variables {
            self.lay_product(set.basis, raised(*t, i));
        }
    }

    // Adds a product where it is neither in S nor on the border yet.
    fn lay_product(&mut self, basis: &Basis, e: Term)
        requires { length self.old.terms < 256 }
        ensures terms { self.new.terms ≡ extended basis.now.terms self.old.terms (e ∷ []) }
        ensures bound { length self.new.terms ≤ length self.old.terms + 1 }
    {
        if !basis.terms.has(&e) && !self.terms.has(&e) {
            self.terms.push(e);
        }
    }

    // Where variable `i` times each term of S leads.
    fn column(&self, set: &Connected<'_>, i: usize) -> [Lead; 32]
        requires within { i < set.now.basis.now.variables }
        ensures { begins (leads_of set.now.basis.now.terms self.now.terms i set.now.basis.now.terms) result ≡ true }
    {
        let mut column = [Lead::Inside(0); 32];
        // By index: after a loop over a zipped `iter_mut` a proof knows no lead of the column.
        for (j, t) in set.basis.terms.as_slice().iter().enumerate() {
            column[j] = self.lead(set.basis, &raised(*t, i));
        }
        column
    }

    fn lead(&self, basis: &Basis, e: &Term) -> Lead
        ensures { result ≡ lead_of basis.now.terms self.now.terms e.now }
    {
        match basis.terms.place(e) {
            Some(place) => Lead::Inside(place as u16),
            // 0 does not come: a product that is not in S is on the border. A refusal would have nobody to go to.
            None => Lead::OnBorder(self.terms.place(e).unwrap_or(0) as u16),
        }
    }
}
