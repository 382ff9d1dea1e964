ghost use Rattle.std.specs.Prelude.{◌≡◌};
ghost use Rattle.sheet_write.specs.Writing.{heading_bytes, answer, held, with_room};

use crate::number::number_size;
use crate::writer::Writer;
use sheet::{OPENING, RecordFault, SheetFault};

// Writes the opening and the three numbers of a heading at the front of the output, and answers how many bytes they take.
// Three plain numbers: what names no field is written too, so that a reader can be tried on it.
pub fn write_heading(
    field: u16,
    modulus: u16,
    variables: u16,
    out: &mut [u8],
) -> Result<usize, SheetFault>
    ensures value { result ≡ answer (with_room out.old (heading_bytes field modulus variables)) }
    ensures after { out.new ≡ held (with_room out.old (heading_bytes field modulus variables)) out.old }
{
    let total = 3 + number_size(field) + number_size(modulus) + number_size(variables);
    if total > out.len() {
        return Err(RecordFault::ShortOutput.into());
    }
    let mut writer = Writer { out, at: 0 };
    writer.bytes(&OPENING);
    writer.number(field);
    writer.number(modulus);
    writer.number(variables);
    Ok(writer.at)
}
