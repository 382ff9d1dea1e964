ghost use Rattle.std.specs.Prelude.{◌≡◌, ◌<◌, IfSome};
ghost use Rattle.algebra.specs.Term.{times, degree as degree_of, zero_past, in_variables, has, place as place_of, same as same_term};
ghost use Rattle.algebra.specs.Border.{multiples_from, multiples};
ghost use Rattle.term.specs.Letters.{first_variable, raised as raised_term};
ghost use Rattle.term.specs.Search.{found};

use crate::search::Test;
use algebra::Term;

// As two numbers of eight bytes, since a search asks this of each term that it passes: `==` of two arrays goes byte by byte.
pub fn same(a: &Term, b: &Term) -> bool
    ensures { result ≡ same_term a.now b.now }
{
    u64::from_le_bytes(*a) == u64::from_le_bytes(*b)
}

// The test whether a term is this one.
#[derive(Clone, Copy)]
pub struct Is(pub Term);

impl Test<Term> for Is {
    ghost meaning = { λ t u. same_term t.0 u };

    fn passes(&self, x: &Term) -> bool {
        same(&self.0, x)
    }
}

// The place of a term in a list, counted from 1.
pub fn place(terms: &[Term], t: &Term) -> Option<usize>
    ensures { result ≡ found (place_of t.now terms.now) }
{
    terms.iter().position(|u| same(t, u)).map(|k| k + 1)
}

// Whether `t` is variable `i` times `s`.
pub fn is_product(t: &Term, i: usize, s: &Term) -> bool
    ensures { result ≡ same_term t.now (times i s.now) }
{
    // Exponent by exponent, with no copy of `s`: nearly every term differs at the first or second.
    (0..8).all(|k| t[k] as u16 == s[k] as u16 + (k == i) as u16)
}

// Whether `t` is one of the first `n` variables times `s`.
fn joins(t: &Term, n: usize, s: &Term) -> bool
    ensures { result ≡ has t.now (multiples_from 0 n s.now) }
{
    (0..n).any(|i| is_product(t, i, s))
}

// Whether `t` is one of the first `n` variables times one of the terms.
pub fn joined(terms: &[Term], n: usize, t: &Term) -> bool
    ensures { result ≡ has t.now (multiples n terms.now) }
{
    terms.iter().any(|s| joins(t, n, s))
}

// Whether the exponents from place `n` on are all 0.
pub fn zero_past(t: &Term, n: usize) -> bool
    ensures { result ≡ zero_past n t.now }
{
    (0..8).all(|k| k < n || t[k] == 0)
}

// Whether the term is in the first `n` variables: the same question in the words of the ring, with a definition of its own.
pub fn in_variables(t: &Term, n: usize) -> bool
    ensures { result ≡ in_variables n t.now }
{
    zero_past(t, n)
}

pub fn degree(t: &Term) -> usize
    ensures { result ≡ degree_of t.now }
{
    t.iter().map(|e| *e as usize).sum()
}

// The first variable that divides the term, and the quotient; none for the term 1.
pub fn first_variable(t: Term) -> Option<(usize, Term)>
    ensures value { result ≡ first_variable t }
    ensures bound { IfSome result (λ x. x.0 < 8) }
{
    let k = t.iter().position(|e| *e != 0)?;
    let mut rest = t;
    rest[k] -= 1;
    Some((k, rest))
}

// Variable `i` times the term; an exponent of 255 stays.
pub fn raised(t: Term, i: usize) -> Term
    ensures { result ≡ raised_term i t }
{
    let mut out = t;
    if i < 8 {
        out[i] = t[i].saturating_add(1);
    }
    out
}
