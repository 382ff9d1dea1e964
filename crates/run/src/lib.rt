// Any list of calls, run on a book just made.
#![tactic(auto)]

mod call;
mod running;
mod worked;

pub use call::{Answer, Call, Given, Line};
pub use running::{perform, replay};
pub use worked::worked_runs;
