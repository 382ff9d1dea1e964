ghost use Rattle.std.specs.Prelude.{◌≡◌, IfOk};
ghost use Rattle.sheet_write.specs.Writing.{BodySize, right_count, body_size, counted};

use crate::number::number_size;
use sheet::{Kind, NumberCause, NumberFault, RecordFault};

// The numbers of a body of a kind, with `n` variables.
#[derive(Clone, Copy)]
pub(crate) struct Body<'a> {
    pub(crate) kind: Kind,
    pub(crate) n: u16,
    pub(crate) numbers: &'a [u16],
}

impl Body<'_> {
    // Whether a body of the kind holds so many numbers.
    fn is_right_count(self) -> bool
        ensures { result ≡ right_count self.entry.kind self.entry.n self.entry.numbers.now }
    {
        let first = self.numbers.first().copied().unwrap_or(0);
        let total = self.kind.total(self.n, first);
        match self.kind {
            Kind::Rule => total <= self.numbers.len(),
            _ => self.numbers.len() == total,
        }
    }

    // Its length, where each number is allowed and there are at most 65,520 bytes.
    fn size(self) -> Option<usize>
        ensures { result ≡ body_size self.entry.kind self.entry.n self.entry.numbers.now }
    {
        // A loop: the sum stops past its limit, and each number has a limit by its place.
        let mut size = 0;
        for (j, &number) in self.numbers.iter().enumerate() {
            if number > self.kind.limit(self.n, j) {
                return None;
            }
            size += number_size(number);
            if size > 65520 {
                return None;
            }
        }
        Some(size)
    }

    // Its length, where it can be written. A body that is to be written stands nowhere yet, so byte and record of its faults are 0.
    pub(crate) fn counted_size(self) -> Result<usize, RecordFault>
        ensures value { result ≡ counted self.entry.kind self.entry.n self.entry.numbers.now }
        ensures size { IfOk result (λ size. BodySize size self.entry.numbers.now) }
    {
        if !self.is_right_count() {
            return Err(RecordFault::WrongBody { byte: 0, record: 0 });
        }
        self.size().ok_or(RecordFault::Number(NumberFault {
            cause: NumberCause::TooLarge,
            byte: 0,
            record: 0,
        }))
    }
}
