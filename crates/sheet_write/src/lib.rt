// The writing of a sheet's numbers and records.
#![tactic(auto)]

mod again;
mod body;
mod heading;
mod laws;
mod number;
mod record;
mod writer;

pub use again::{read_record, round};
pub use heading::write_heading;
pub use laws::{numbers_round, records_round, sheets_round};
pub use number::{number_size, write_number};
pub use record::write_record;
