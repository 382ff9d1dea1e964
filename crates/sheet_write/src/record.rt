ghost use Rattle.std.specs.Prelude.{◌≡◌, ℕ, IfOk};
ghost use Rattle.sheet.specs.Fault.{next};
ghost use Rattle.sheet_write.specs.Laws.{ReadsAs};
ghost use Rattle.sheet_write.specs.Writing.{BodySize, accepted, write_record, answer, held, with_room};

use crate::body::Body;
use crate::number::number_size;
use crate::writer::Writer;
use sheet::{Kind, RecordFault, SheetFault};

// The length of the body of a record that can be written. It takes what no one has judged yet: only a known kind makes a Body. It stands nowhere yet, so byte and record of its faults are 0.
fn accepted_size(n: u16, kind: u16, numbers: &[u16]) -> Result<usize, RecordFault>
    ensures value { result ≡ accepted n kind numbers.now }
    ensures size { IfOk result (λ size. BodySize size numbers.now) }
{
    if !(1..=8).contains(&n) {
        return Err(RecordFault::WrongVariables);
    }
    let kind = Kind::try_from(kind).map_err(|_| RecordFault::UnknownKind { byte: 0, record: 0 })?;
    Body { kind, n, numbers }.counted_size()
}

// Writes a record at the front of the output, and answers how many bytes it takes.
// The kind comes as any number and is refused as an unknown kind: a Kind would leave that to the caller.
pub fn write_record(n: u16, kind: u16, numbers: &[u16], out: &mut [u8]) -> Result<usize, SheetFault>
    ensures value { result ≡ answer (next (write_record n kind numbers.now) (with_room out.old)) }
    ensures after { out.new ≡ held (next (write_record n kind numbers.now) (with_room out.old)) out.old }
    ensures reads { IfOk result (λ size. (start count : ℕ) → ReadsAs n kind numbers.now out.new start count size) }
{
    let size = accepted_size(n, kind, numbers)?;
    let length = size as u16;
    let total = number_size(kind) + number_size(length) + size;
    if total > out.len() {
        return Err(RecordFault::ShortOutput.into());
    }
    let mut writer = Writer { out, at: 0 };
    writer.number(kind);
    writer.number(length);
    writer.numbers(numbers);
    Ok(writer.at)
}
