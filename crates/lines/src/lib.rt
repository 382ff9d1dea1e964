// The lines that a sheet is answered with, and the faults that end them.
#![tactic(auto)]

mod fault;
mod line;
mod sink;
mod text;

pub use fault::Fault;
pub use line::Line;
