ghost use Rattle.std.specs.Prelude.{◌≡◌, ℕ, ◌≤◌, length, IfOk, Ok};
ghost use Rattle.sheet.specs.Number.{number_bytes, read_number};
ghost use Rattle.sheet_write.specs.Writing.{answer, held, with_room};

use crate::writer::Writer;
use sheet::{RecordFault, SheetFault};

// How many bytes a number takes.
pub fn number_size(value: u16) -> usize
    ensures { result ≡ length (number_bytes value) }
{
    match value {
        0..=127 => 1,
        128..=16383 => 2,
        _ => 3,
    }
}

// Puts a number at the front of the output.
pub fn write_number(value: u16, out: &mut [u8]) -> Result<usize, SheetFault>
    ensures value { result ≡ answer (with_room out.old (number_bytes value)) }
    ensures after { out.new ≡ held (with_room out.old (number_bytes value)) out.old }
    ensures reads { IfOk result (λ size. (limit : ℕ) → value ≤ limit → limit ≤ 65535 → read_number limit out.new ≡ Ok (value, size)) }
{
    if number_size(value) > out.len() {
        return Err(RecordFault::ShortOutput.into());
    }
    let mut writer = Writer { out, at: 0 };
    writer.number(value);
    Ok(writer.at)
}
