ghost use Rattle.std.specs.Prelude.{◌≡◌, ◌+◌, ◌^◌, ◌<◌, ◌≤◌, length, IfOk};
ghost use Rattle.sheet.specs.Fault.{in_sheet};
ghost use Rattle.sheet.specs.Number.{Taken};
ghost use Rattle.sheet.specs.Body.{number_at, check_body};
ghost use Rattle.sheet.specs.Record.{read_head, read_record, PlacedInside};

use crate::fault::{NumberFault, Place, RecordFault, SheetFault};
use crate::kind::Kind;
use crate::number::{NumberCause, read_number};

// A record's kind, and where its body begins and ends, counted from the record's first byte.
// Two places and no Range, which is not Copy.
#[derive(Clone, Copy)]
pub struct Extent {
    pub kind: Kind,
    pub from: usize,
    pub to: usize,
}

// The bytes begin at the place. The two stay apart, since a body goes on with both at its own pace.
pub(crate) fn number_at(limit: u16, bytes: &[u8], place: Place) -> Result<(u16, usize), NumberFault>
    ensures value { result ≡ number_at limit bytes.now place.byte place.count }
    ensures back { IfOk result (λ p. Taken limit bytes.now p.0 p.1) }
{
    read_number(limit, bytes).map_err(|cause| place.number_fault(cause))
}

// The body of a record at a place, `from` bytes after the record's first.
fn check_body(kind: Kind, n: u16, place: Place, from: usize, body: &[u8]) -> Result<(), RecordFault>
    requires { place.byte + from + length body.now < 2 ^ 64 }
    ensures { result ≡ check_body kind n place.byte place.count (place.byte + from) body.now }
{
    let mut rest = body;
    let mut at = place.after(from);
    let mut j: usize = 0;
    let mut whole = kind.total(n, 0);
    // A while: how many bytes a number takes is known once it is read, and its limit depends on how many came before.
    while !rest.is_empty() {
        if kind.is_full(j, whole) {
            return Err(place.wrong_body());
        }
        let (value, size) = number_at(kind.limit(n, j), rest, at)?;
        whole = kind.whole_after(n, j, value, whole);
        j += 1;
        at = at.after(size);
        rest = &rest[size..];
    }
    if j < whole {
        return Err(at.number_fault(NumberCause::Unfinished).into());
    }
    Ok(())
}

fn read_head(bytes: &[u8], place: Place) -> Result<Extent, RecordFault>
    requires { place.byte + length bytes.now < 2 ^ 64 }
    ensures value { result ≡ read_head bytes.now place.byte place.count }
    ensures inside { IfOk result (λ e. PlacedInside bytes.now e) }
{
    let (number, kind_size) = number_at(65535, bytes, place)?;
    let kind = Kind::try_from(number).map_err(|_| place.unknown_kind())?;
    let rest = &bytes[kind_size..];
    let (body_size, length_size) = number_at(65520, rest, place.after(kind_size))?;
    let from = kind_size + length_size;
    let to = from + body_size as usize;
    if to > bytes.len() {
        return Err(place.wrong_body());
    }
    Ok(Extent { kind, from, to })
}

// The record at a place of its sheet, which begins with the first of the bytes.
pub(crate) fn read_record(n: u16, bytes: &[u8], place: Place) -> Result<Extent, RecordFault>
    requires { place.byte + length bytes.now < 2 ^ 64 }
    ensures value { result ≡ read_record n bytes.now place.byte place.count }
    ensures inside { IfOk result (λ e. PlacedInside bytes.now e) }
{
    let extent = read_head(bytes, place)?;
    let Extent { kind, from, to } = extent;
    check_body(kind, n, place, from, &bytes[from..to])?;
    Ok(extent)
}

// The record that begins with the first of the bytes, as the first of its sheet.
pub fn read_front(n: u16, bytes: &[u8]) -> Result<Extent, SheetFault>
    ensures value { result ≡ in_sheet (read_record n bytes.now 0 1) }
    ensures inside { IfOk result (λ e. PlacedInside bytes.now e) }
{
    Ok(read_record(n, bytes, Place { byte: 0, count: 1 })?)
}
