ghost use Rattle.std.specs.Prelude.{◌≡◌, ◌+◌, ◌^◌, ◌<◌};
ghost use Rattle.sheet.specs.Fault.{fault_at, cause_number, fault_number, fault_byte, fault_record, fault_layer, layer_name};
ghost use Rattle.sheet.specs.declared.fault.RecordFault.TheVariants as in_record;
ghost use Rattle.sheet.specs.declared.fault.SheetFault.TheVariants as in_sheet;

use crate::number::NumberCause;

// Which part of the format a fault was met in.
#[derive(Clone, Copy, Debug, PartialEq)]
pub enum Layer {
    Number,
    Record,
    Book,
}

impl Layer {
    // The word for it in a report and in a listing.
    pub fn name(self) -> &'static str
        ensures { result.now ≡ layer_name self }
    {
        match self {
            Layer::Number => "number",
            Layer::Record => "record",
            Layer::Book => "book",
        }
    }
}

// A fault of the number whose first byte stands at `byte`.
#[derive(Clone, Copy, Debug, PartialEq)]
pub struct NumberFault {
    pub cause: NumberCause,
    pub byte: usize,
    pub record: usize,
}

// A fault of the record whose first byte stands at `byte`, or of a number in it.
#[derive(Clone, Copy, Debug, PartialEq)]
pub enum RecordFault {
    Number(NumberFault),
    UnknownKind { byte: usize, record: usize },
    WrongBody { byte: usize, record: usize },
    WrongVariables,
    ShortOutput,
}

#[derive(Clone, Copy, Debug, PartialEq)]
pub enum SheetFault {
    Record(RecordFault),
    WrongOpening,
    TooLong,
}

impl From<NumberFault> for RecordFault {
    ghost from_gives = { λ f r. r ≡ in_record.Number f };

    fn from(fault: NumberFault) -> RecordFault {
        RecordFault::Number(fault)
    }
}

impl From<RecordFault> for SheetFault {
    ghost from_gives = { λ f r. r ≡ in_sheet.Record f };

    fn from(fault: RecordFault) -> SheetFault {
        SheetFault::Record(fault)
    }
}

// Where a record or a number stands: its first byte in the sheet, and its record from 1. 0 and no Option for the heading, since 0 is what is printed.
// Faults are public and name the two themselves, so that a pattern shows them.
#[derive(Clone, Copy)]
pub(crate) struct Place {
    pub(crate) byte: usize,
    pub(crate) count: usize,
}

impl Place {
    // So many bytes further on, in the same record.
    pub(crate) fn after(self, bytes: usize) -> Place
        requires { self.byte + bytes < 2 ^ 64 }
        ensures byte { result.byte ≡ self.byte + bytes }
        ensures count { result.count ≡ self.count }
    {
        Place {
            byte: self.byte + bytes,
            count: self.count,
        }
    }

    pub(crate) fn number_fault(self, cause: NumberCause) -> NumberFault
        ensures { result ≡ fault_at self.byte self.count cause }
    {
        NumberFault {
            cause,
            byte: self.byte,
            record: self.count,
        }
    }

    // This and the next are two: a variant with named fields is no function that one of them could take.
    pub(crate) fn unknown_kind(self) -> RecordFault
        ensures { result ≡ in_record.UnknownKind self.byte self.count }
    {
        RecordFault::UnknownKind {
            byte: self.byte,
            record: self.count,
        }
    }

    pub(crate) fn wrong_body(self) -> RecordFault
        ensures { result ≡ in_record.WrongBody self.byte self.count }
    {
        RecordFault::WrongBody {
            byte: self.byte,
            record: self.count,
        }
    }
}

impl NumberCause {
    // A method, as it is for a whole fault.
    pub fn number(self) -> u8
        ensures { result ≡ cause_number self }
    {
        match self {
            NumberCause::Unfinished => 18,
            NumberCause::NotShortest => 19,
            NumberCause::TooLarge => 20,
        }
    }
}

impl SheetFault {
    // A method as the byte, the record and the layer are: a From<SheetFault> for u8 would be no plainer beside them.
    pub fn number(self) -> u8
        ensures { result ≡ fault_number self }
    {
        match self {
            SheetFault::Record(RecordFault::Number(fault)) => fault.cause.number(),
            SheetFault::Record(RecordFault::UnknownKind { .. }) => 22,
            SheetFault::Record(RecordFault::WrongBody { .. }) => 23,
            SheetFault::Record(RecordFault::WrongVariables) => 1,
            SheetFault::Record(RecordFault::ShortOutput) => 24,
            SheetFault::WrongOpening => 21,
            SheetFault::TooLong => 25,
        }
    }

    fn place(self) -> Place
        ensures byte { result.byte ≡ fault_byte self }
        ensures count { result.count ≡ fault_record self }
    {
        match self {
            SheetFault::Record(RecordFault::Number(fault)) => Place {
                byte: fault.byte,
                count: fault.record,
            },
            SheetFault::Record(
                RecordFault::UnknownKind { byte, record } | RecordFault::WrongBody { byte, record },
            ) => Place {
                byte,
                count: record,
            },
            _ => Place { byte: 0, count: 0 },
        }
    }

    // The place of the byte that the fault was met at.
    pub fn byte(self) -> usize
        ensures { result ≡ fault_byte self }
    {
        self.place().byte
    }

    // The record that the fault was met in, from 1, or 0 for the heading and the whole sheet.
    pub fn record(self) -> usize
        ensures { result ≡ fault_record self }
    {
        self.place().count
    }

    pub fn layer(self) -> Layer
        ensures { result ≡ fault_layer self }
    {
        match self {
            SheetFault::Record(RecordFault::Number(_)) => Layer::Number,
            _ => Layer::Record,
        }
    }
}
