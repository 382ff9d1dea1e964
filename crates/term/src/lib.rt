// Terms as values of eight bytes: comparison, search, and the variables of a term. Functions and no methods, since a term is an array.
#![tactic(auto)]

mod search;
mod terms;

pub use search::{Test, first_place};
pub use terms::{
    Is, degree, first_variable, in_variables, is_product, joined, place, raised, same, zero_past,
};
