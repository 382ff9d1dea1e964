ghost use Rattle.std.specs.Prelude.{◌≡◌, ◌≤◌, true};
ghost use Rattle.algebra.specs.Border.{connected};
ghost use Rattle.book.specs.Ledger.{new_ledger};
ghost use Rattle.book.specs.Kept.{ledger, kept};

use crate::phase::Phase;
use crate::terms::Terms;
use row::Lead;

// What a book holds lies in arrays of the largest sizes: the library has no heap. Rows and leads stand beside their terms, place by place, since a search goes over terms alone.

// The variables and the terms of S.
#[derive(Drop)]
pub struct Basis {
    pub variables: usize,
    pub terms: Terms<32>,
}

// A set that is connected to 1, in at most eight variables: the product of a variable and a term of it stays within its bytes.
#[derive(Drop)]
pub struct Connected<'a> {
    pub basis: &'a Basis,
    ghost few: { basis.now.variables ≤ 8 },
    ghost linked: { connected basis.now.variables basis.now.terms ≡ true },
}

// For each variable, where its products with the terms of S lead.
#[derive(Drop)]
pub struct Leads {
    pub columns: [[Lead; 32]; 8],
}

// The border terms and their leads.
#[derive(Drop)]
pub struct Border {
    pub terms: Terms<256>,
    pub leads: Leads,
}

// The row of each border place that has a rule.
#[derive(Drop)]
pub struct Rules {
    pub rows: [Option<[u16; 32]>; 256],
}

// All that a book holds beside its field.
#[derive(Drop)]
pub struct Contents {
    pub phase: Phase,
    pub basis: Basis,
    pub border: Border,
    pub rules: Rules,
}

impl Contents {
    // Open, with one variable and no terms.
    pub(crate) fn new() -> Contents
        ensures value { ledger result ≡ new_ledger }
        ensures kept { kept result ≡ true }
    {
        Contents {
            phase: Phase::Open,
            basis: Basis {
                variables: 1,
                terms: Terms::new(),
            },
            border: Border {
                terms: Terms::new(),
                leads: Leads {
                    columns: [[Lead::Inside(0); 32]; 8],
                },
            },
            rules: Rules { rows: [None; 256] },
        }
    }
}
