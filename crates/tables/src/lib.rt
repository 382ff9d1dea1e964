// The arithmetic of a field on paper: tables of sums and products, negatives and inverses, in aligned columns.
#![tactic(auto)]

mod cut;
mod pages;
mod request;
mod text;

pub use pages::page;
pub use text::answers;
