// The checker: a book of terms and rules over any lawful field.
#![tactic(auto)]

mod basis;
mod book;
mod border;
mod contents;
mod phase;
mod refusal;
mod rules;
mod search;
mod terms;
mod verdict;

pub use book::Book;
pub use phase::Phase;
pub use refusal::Refusal;
pub use verdict::Verdict;
