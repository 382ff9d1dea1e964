ghost use Rattle.std.specs.Prelude.{◌≡◌};
ghost use Rattle.lines.specs.Fault.{number_of, byte_of, record_of, layer_of};
ghost use Rattle.lines.specs.declared.fault.Fault.TheVariants as faults;

use sheet::{Layer, SheetFault};

// Why the run of a sheet stops: a fault of its format, or a refusal by the field or the book, placed at what was judged.
#[derive(Clone, Copy)]
pub enum Fault {
    Sheet(SheetFault),
    Field {
        refusal: field::Refusal,
        byte: usize,
    },
    Book {
        refusal: book::Refusal,
        byte: usize,
        record: usize,
    },
}

impl From<SheetFault> for Fault {
    ghost from_gives = { λ f r. r ≡ faults.Sheet f };

    fn from(fault: SheetFault) -> Fault {
        Fault::Sheet(fault)
    }
}

impl Fault {
    // A method as those of the refusals and faults that it holds.
    pub fn number(self) -> u16
        ensures { result ≡ number_of self }
    {
        match self {
            Fault::Sheet(fault) => fault.number() as u16,
            Fault::Field { refusal, .. } => refusal.number(),
            Fault::Book { refusal, .. } => refusal.number(),
        }
    }

    // The place of the byte that was judged: that of the fault, of the heading's number, or the first of the record.
    pub fn byte(self) -> usize
        ensures { result ≡ byte_of self }
    {
        match self {
            Fault::Sheet(fault) => fault.byte(),
            Fault::Field { byte, .. } => byte,
            Fault::Book { byte, .. } => byte,
        }
    }

    // The record, from 1, or 0 for the heading and the whole sheet, since 0 is what is printed.
    pub fn record(self) -> usize
        ensures { result ≡ record_of self }
    {
        match self {
            Fault::Sheet(fault) => fault.record(),
            Fault::Field { .. } => 0,
            Fault::Book { record, .. } => record,
        }
    }

    pub fn layer(self) -> Layer
        ensures { result ≡ layer_of self }
    {
        match self {
            Fault::Sheet(fault) => fault.layer(),
            Fault::Field { .. } => Layer::Book,
            Fault::Book { .. } => Layer::Book,
        }
    }
}
