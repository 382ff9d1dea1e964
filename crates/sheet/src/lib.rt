// The byte format of a sheet: a heading of three numbers, then records.
#![tactic(auto)]

mod cursor;
mod fault;
mod kind;
mod laws;
mod number;
mod numbers;
mod reader;
mod reading;
mod record;

pub use fault::{Layer, NumberFault, RecordFault, SheetFault};
pub use kind::{Kind, UnknownKind};
pub use laws::examples_stand;
pub use number::{NumberCause, read_number};
pub use numbers::Numbers;
pub use reader::{Placed, Reader, Record};
pub use reading::OPENING;
pub use record::{Extent, read_front};
