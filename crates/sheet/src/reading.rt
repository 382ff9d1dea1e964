ghost use Rattle.std.specs.Prelude.{◌≡◌, ◌+◌, ◌≤◌, length, drop, IfOk};
ghost use Rattle.sheet.specs.Fault.{in_record};
ghost use Rattle.sheet.specs.Body.{number_at};
ghost use Rattle.sheet.specs.Reading.{state, open_sheet, opened, heading, heading_number, after_number, begun, next_record, seen_next, after_record, record_kind, record_body, held};

use crate::fault::{Place, RecordFault, SheetFault};
use crate::kind::Kind;
use crate::reader::{Placed, Reader, Record};
use crate::record::{Extent, number_at, read_record};

pub const OPENING: [u8; 3] = [0x42, 0x42, 0x31];

fn record_of(kind: Kind, body: &[u8]) -> Record<'_>
    ensures kind { record_kind result ≡ kind }
    ensures body { record_body result ≡ held kind body.now }
{
    match kind {
        Kind::Term => Record::Term(body),
        Kind::Close => Record::Close,
        Kind::Rule => Record::Rule(body),
        Kind::Check => Record::Check,
        Kind::Question => Record::Question(body),
        Kind::Strike => Record::Strike(body),
    }
}

impl<'a> Reader<'a> {
    pub fn open(bytes: &'a [u8]) -> Result<Reader<'a>, SheetFault>
        ensures { opened result ≡ open_sheet bytes.now }
    {
        if bytes.len() > 65535 {
            return Err(SheetFault::TooLong);
        }
        if !bytes.starts_with(&OPENING) {
            return Err(SheetFault::WrongOpening);
        }
        Ok(Reader {
            bytes,
            at: 3,
            records: 0,
            variables: 0,
        })
    }

    pub fn begin(&mut self, variables: u16)
        ensures { state self.new ≡ begun variables (state self.old) }
    {
        self.variables = variables;
    }

    // The next number of the heading, with the place of its first byte.
    pub fn heading_number(&mut self) -> Result<(u16, usize), SheetFault>
        ensures value { result ≡ heading_number (state self.old) }
        ensures after { state self.new ≡ after_number (state self.old) (heading (state self.old)) }
    {
        let byte = self.at;
        let rest = &self.bytes[byte..];
        let place = Place { byte, count: 0 };
        let (value, size) = number_at(65535, rest, place).map_err(RecordFault::Number)?;
        self.at += size;
        Ok((value, byte))
    }

    // The next record, or none at the end of the sheet. No Iterator: at a fault the reader stays, so that its faults would have no end.
    pub fn next(&mut self) -> Result<Option<Placed<'a>>, SheetFault>
        ensures value { seen_next result ≡ next_record (state self.old) }
        ensures after { state self.new ≡ after_record (state self.old) }
    {
        let byte = self.at;
        let variables = self.variables;
        let count = self.records + 1;
        let rest = &self.bytes[byte..];
        if rest.is_empty() {
            return Ok(None);
        }
        let Extent { kind, from, to } = read_record(variables, rest, Place { byte, count })?;
        self.at += to;
        self.records = count;
        Ok(Some(Placed {
            byte,
            count,
            variables,
            record: record_of(kind, &rest[from..to]),
        }))
    }
}
