// A sheet run on a book, and the lines that it is answered with.
#![tactic(auto)]

mod calls;
mod heading;
mod running;
mod stop;
mod worked;

pub use running::report;
pub use worked::worked_examples;
