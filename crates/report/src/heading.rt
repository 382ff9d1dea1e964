// The first number of a heading, judged.
ghost use Rattle.std.specs.Prelude.{◌≡◌};
ghost use Rattle.report.specs.Heading.{named_kind};

use field::Refusal;

// The kinds of field that a sheet can name.
#[derive(Clone, Copy)]
pub enum FieldKind {
    PrimeKind,
    BinaryKind,
}

impl TryFrom<u16> for FieldKind {
    type Error = Refusal;

    ghost try_from_gives = { λ number r. r ≡ named_kind number };

    fn try_from(number: u16) -> Result<FieldKind, Refusal> {
        match number {
            0 => Ok(FieldKind::PrimeKind),
            1 => Ok(FieldKind::BinaryKind),
            _ => Err(Refusal::UnknownField),
        }
    }
}
