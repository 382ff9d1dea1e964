// Rows of codes: arithmetic in place over any field, the maps of the variables, and the walks that list entries.
#![tactic(auto)]

mod lead;
mod maps;
mod slots;
mod stored;
mod sums;

pub use lead::Lead;
pub use maps::Maps;
pub use slots::Slots;
pub use stored::StoredRow;
pub use sums::{add_multiple, clear, is_zero, subtract};
