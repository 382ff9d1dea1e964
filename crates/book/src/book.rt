// A book: terms, their border, and rules for the border, over one field.
ghost use Rattle.std.specs.Prelude.{◌≡◌, true};
ghost use Rattle.book.specs.Kept.{kept as keeps, ready as is_ready};

use crate::contents::Contents;
use field::Field;

pub mod answers;
pub mod clashing;
pub mod filling;
pub mod forming;
pub mod judging;
pub mod mapping;
pub mod rules;

#[derive(Drop)]
pub struct Book<F: Field> {
    field: F,
    contents: Contents,
    ghost kept: { keeps contents ≡ true },
}

// The parts of a closed book that lacks no rule: what is reckoned by its maps needs both.
// The place of a term and the length of a row stay preconditions of its methods: a type for either would lend the book again and be made at every call.
#[derive(Drop)]
pub(crate) struct Complete<'a, F: Field> {
    field: &'a F,
    contents: &'a Contents,
    ghost kept: { keeps contents.now ≡ true },
    ghost ready: { is_ready contents.now ≡ true },
}
