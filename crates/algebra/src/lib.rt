// The mathematics of border bases over any commutative ring on codes: definitions and theorems.
// The types are those that the code above computes with. Each function states a theorem; there is nothing to run.
#![tactic(auto)]

ghost use Rattle.algebra.specs.Theorems.{WalksAccountAlways, BorderBasisTheorem, NormalFormTheorem};
ghost use Rattle.algebra.specs.Worked.{Worked};

// A product of powers of at most eight variables, by its exponents.
pub type Term = [u8; 8];

// A multiple of a rule: `code` times `multiplier` times the rule polynomial at a border place, counted from 1.
#[derive(Clone, Copy, Debug, PartialEq)]
pub struct Entry {
    pub code: u16,
    pub multiplier: Term,
    pub place: u16,
}

// Where two maps do not commute: the place of a term of S and two variables, all counted from 0.
#[derive(Clone, Copy, Debug, PartialEq)]
pub struct Clash {
    pub term: usize,
    pub a: usize,
    pub b: usize,
}

// A row times a word is the last row of the walk plus its entries, whatever the rules are.
#[tactic(auto, using(crate::proofs::Clashes::walks_account_always))]
pub fn walks_account()
    ensures { WalksAccountAlways }
{}

// The maps commute on S exactly when no combination of S but zero lies in the ideal of the rules.
#[tactic(auto, using(crate::proofs::Clashes::border_basis_theorem))]
pub fn border_basis()
    ensures { BorderBasisTheorem }
{}

// Where the maps commute, normal forms are equal exactly when the difference lies in the ideal.
#[tactic(auto, using(crate::proofs::Clashes::normal_form_theorem))]
pub fn normal_forms()
    ensures { NormalFormTheorem }
{}

// Worked examples over the residues modulo 3.
pub fn worked_examples()
    ensures { Worked }
{}
