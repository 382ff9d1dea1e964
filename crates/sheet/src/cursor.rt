ghost use Rattle.std.specs.Prelude.{◌≡◌, min, ◌++◌, length, take, drop};
ghost use Rattle.std.specs.Iterator.{YieldsFirst, item_count};
ghost use Rattle.sheet.specs.Numbers.{left, exponents_of};
ghost use Rattle.sheet.specs.Reading.{record_body};

use crate::number::read_number;
use crate::numbers::Numbers;
use crate::reader::Record;

impl<'a> Record<'a> {
    // The numbers of its body; a close and a check have none.
    pub fn numbers(self) -> Numbers<'a>
        ensures { result.rest.now ≡ record_body self.entry }
    {
        match self {
            Record::Term(body)
            | Record::Rule(body)
            | Record::Question(body)
            | Record::Strike(body) => Numbers { rest: body },
            Record::Close | Record::Check => Numbers { rest: &[] },
        }
    }
}

impl<'a> Numbers<'a> {
    // `of` and no `From`: any bytes can be asked for their numbers, but they do not turn into them.
    pub fn of(body: &'a [u8]) -> Numbers<'a>
        ensures { result.rest.now ≡ body.now }
    {
        Numbers { rest: body }
    }

    // The next `n` numbers, of which there are at most eight, as the exponents of a term; those that there are not count as 0.
    pub fn exponents(&mut self, n: u16) -> [u8; 8]
        ensures value { result ≡ exponents_of (min n 8) (left self.old) }
        ensures after { left self.new ≡ drop (min n 8) (left self.old) }
    {
        let mut out = [0; 8];
        for exponent in &mut out[..(n as usize).min(8)] {
            *exponent = self.next().unwrap_or(0).min(255) as u8;
        }
        out
    }

    // Puts the numbers into the output as far as it goes, and answers how many.
    pub fn copy_into(&mut self, out: &mut [u16]) -> usize
        ensures value { result ≡ min (length (left self.old)) (length out.old) }
        ensures out { out.new ≡ take result (left self.old) ++ drop result out.old }
        ensures after { left self.new ≡ drop result (left self.old) }
    {
        for (k, slot) in out.iter_mut().enumerate() {
            match self.next() {
                Some(x) => *slot = x,
                None => return k,
            }
        }
        out.len()
    }
}

impl Iterator for Numbers<'_> {
    type Item = u16;

    ghost next_gives = { YieldsFirst left };

    ghost remaining = { item_count left };

    fn next(&mut self) -> Option<u16> {
        let (value, size) = read_number(65535, self.rest).ok()?;
        self.rest = &self.rest[size..];
        Some(value)
    }
}
