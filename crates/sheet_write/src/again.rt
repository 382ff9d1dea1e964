ghost use Rattle.std.specs.Prelude.{◌≡◌, IfOk};
ghost use Rattle.std.specs.Str.{bytes_eq};
ghost use Rattle.sheet.specs.Fault.{next, in_sheet};
ghost use Rattle.sheet.specs.Numbers.{numbers_of};
ghost use Rattle.sheet.specs.Record.{read_record};
ghost use Rattle.sheet_write.specs.Laws.{WritesBack};
ghost use Rattle.sheet_write.specs.Writing.{write_record, answer, held, with_room, read_again};

use crate::record::write_record;
use sheet::{Extent, Numbers, SheetFault, read_front};

// Whether the numbers of a body are these.
fn same_numbers(body: &[u8], numbers: &[u16]) -> bool
    ensures { result ≡ bytes_eq (numbers_of body.now) numbers.now }
{
    Numbers::of(body).eq(numbers.iter().copied())
}

// Writes a record, reads it back, and answers whether it is the same. The kind comes as any number, as it does to `write_record`.
pub fn round(n: u16, kind: u16, numbers: &[u16], out: &mut [u8]) -> Result<bool, SheetFault>
    ensures value { result ≡ read_again (answer (next (write_record n kind numbers.now) (with_room out.old))) }
    ensures after { out.new ≡ held (next (write_record n kind numbers.now) (with_room out.old)) out.old }
{
    let size = write_record(n, kind, numbers, out)?;
    let Extent {
        kind: found,
        from,
        to,
    } = read_front(n, out)?;
    Ok(u16::from(found) == kind && to == size && same_numbers(&out[from..to], numbers))
}

// The record at the front of the bytes. With 1 to 8 variables, its kind and numbers are written to the bytes that it was read from.
pub fn read_record(n: u16, bytes: &[u8]) -> Result<Extent, SheetFault>
    ensures value { result ≡ in_sheet (read_record n bytes.now 0 1) }
    ensures back { IfOk result (λ e. WritesBack n bytes.now e) }
{
    read_front(n, bytes)
}
