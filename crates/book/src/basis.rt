ghost use Rattle.std.specs.Prelude.{◌≡◌};
ghost use Rattle.book.specs.Judge.{judge_new, joins as joins_set, granted};

use crate::contents::Basis;
use crate::refusal::Refusal;
use algebra::Term;
use term::{joined, same, zero_past};

impl Basis {
    // Whether `t` may be added: 1 to an empty set, a variable times a term that is there to any other.
    fn joins(&self, t: &Term) -> bool
        ensures { result ≡ joins_set self.now.variables self.now.terms t.now }
    {
        match self.terms.as_slice() {
            [] => same(t, &[0; 8]),
            terms => joined(terms, self.variables, t),
        }
    }

    // Why a term may not be added.
    pub(crate) fn judge(&self, t: &Term) -> Result<(), Refusal>
        ensures { result ≡ granted (judge_new self.now.variables self.now.terms t.now) tt }
    {
        if !zero_past(t, self.variables) {
            return Err(Refusal::ExponentPastVariables(1));
        }
        if self.terms.has(t) {
            return Err(Refusal::TermPresent);
        }
        if !self.joins(t) {
            return Err(Refusal::TermNotJoined);
        }
        if self.terms.len() == 32 {
            return Err(Refusal::TooManyTerms);
        }
        Ok(())
    }
}
