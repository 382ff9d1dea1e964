// Why a run stops before the end of its sheet.
ghost use Rattle.std.specs.Prelude.{◌≡◌};
ghost use Rattle.lines.specs.declared.fault.Fault.TheVariants as faults;
ghost use Rattle.report.specs.Heading.{refused_by_field, refused_by_book};
ghost use Rattle.report.specs.declared.stop.Stop.TheVariants as stops;

use lines::Fault;
use sheet::SheetFault;
use std::alloc::AllocError;

#[derive(Drop)]
pub(crate) enum Stop {
    Fault(Fault),
    NoMemory,
}

impl From<Fault> for Stop {
    ghost from_gives = { λ f r. r ≡ stops.Fault f };

    fn from(fault: Fault) -> Stop {
        Stop::Fault(fault)
    }
}

impl From<SheetFault> for Stop {
    ghost from_gives = { λ f r. r ≡ stops.Fault (faults.Sheet f) };

    fn from(fault: SheetFault) -> Stop {
        Stop::Fault(Fault::Sheet(fault))
    }
}

impl From<AllocError> for Stop {
    ghost from_gives = { λ _ r. r ≡ stops.NoMemory };

    fn from(_error: AllocError) -> Stop {
        Stop::NoMemory
    }
}

// A refusal by the field stands at the number that was judged.
pub(crate) fn by_field<T>(made: Result<T, field::Refusal>, byte: usize) -> Result<T, Fault>
    ensures { result ≡ refused_by_field made byte }
{
    made.map_err(|refusal| Fault::Field { refusal, byte })
}

// A refusal by the book stands at the first byte of its record, from 1, or at a number of the heading, in record 0, which is what is printed.
pub(crate) fn by_book<T>(
    granted: Result<T, book::Refusal>,
    byte: usize,
    record: usize,
) -> Result<T, Fault>
    ensures { result ≡ refused_by_book granted byte «record» }
{
    granted.map_err(|refusal| Fault::Book {
        refusal,
        byte,
        record,
    })
}
