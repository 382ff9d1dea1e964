// Finite fields on small codes: the interface with its laws, and the two kinds that are supplied.
#![tactic(auto)]

ghost use Rattle.field.specs.Derived.{Derivable};
ghost use Rattle.field.specs.Worked.{Worked};

mod binary;
mod field;
mod prime;
mod refusal;

pub use binary::Binary;
pub use field::{Field, read_code};
pub use prime::Prime;
pub use refusal::Refusal;

// The laws that proofs about codes use, with no premise, follow from the ring laws alone.
pub fn ring_laws_derived()
    ensures { Derivable }
{}

// Products and an inverse that were worked out by hand.
pub fn worked_examples()
    ensures { Worked }
{}
