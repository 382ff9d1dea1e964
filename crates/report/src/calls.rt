// The call that a record makes.
ghost use Rattle.std.specs.Prelude.{◌≡◌, ◌+◌, min, drop, replicate, IfOk, slice_index};
ghost use Rattle.sheet.specs.Numbers.{numbers_of, exponents_of, left};
ghost use Rattle.sheet.specs.Reading.{seen};
ghost use Rattle.run.specs.Calls.{step_of, rule as rule_step, check as check_step, cofactor as cofactor_step};
ghost use Rattle.report.specs.Calls.{call as made_call, pairs_from, slots as all_slots};

use algebra::{Entry, Term};
use run::{Call, Given};
use sheet::{Numbers, Placed, Record};
use std::alloc::{AllocError, Global};

const SLOTS: usize = 4096;

// The numbers that are left.
fn codes(heap: Global, numbers: Numbers<'_>) -> Result<Vec<u16>, AllocError>
    ensures { IfOk result (λ v. v.items ≡ left numbers.entry) }
{
    numbers.collect(heap)
}

// Makes the calls on a book with `n` variables and `size` terms, their slices on `heap`.
#[derive(Clone, Copy)]
struct Maker {
    heap: Global,
    n: u16,
    size: usize,
}

impl Maker {
    fn term(self, body: &[u8]) -> Term
        ensures { result ≡ exponents_of (min self.n 8) (numbers_of body.now) }
    {
        let mut numbers = Numbers::of(body);
        numbers.exponents(self.n)
    }

    fn rule(self, body: &[u8]) -> Result<Call, AllocError>
        ensures { IfOk result (λ call. step_of call ≡ rule_step (exponents_of (min self.n 8) (numbers_of body.now)) (slice_index (numbers_of body.now) (min self.n 8)) (drop (min self.n 8 + 1) (numbers_of body.now))) }
    {
        let mut numbers = Numbers::of(body);
        let term = numbers.exponents(self.n);
        let lead = numbers.next().unwrap_or(0);
        let row = codes(self.heap, numbers)?;
        Ok(Call::Rule(Given { term, lead, row }))
    }

    // By a loop: of a closure that takes numbers out as it goes, the prover knows no result.
    fn pairs(self, body: &[u8]) -> Result<Vec<(u16, Term)>, AllocError>
        ensures { IfOk result (λ v. v.items ≡ pairs_from (min self.n 8) (slice_index (numbers_of body.now) 0) (drop 1 (numbers_of body.now))) }
    {
        let mut numbers = Numbers::of(body);
        let count = numbers.next().unwrap_or(0);
        let mut pairs = Vec::new(self.heap);
        for _ in 0..count {
            let code = numbers.next().unwrap_or(0);
            let term = numbers.exponents(self.n);
            pairs.push((code, term))?;
        }
        Ok(pairs)
    }

    fn slots(self) -> Result<Vec<Entry>, AllocError>
        ensures { IfOk result (λ v. v.items ≡ all_slots) }
    {
        let blank = Entry {
            code: 0,
            multiplier: [0; 8],
            place: 0,
        };
        vec![in self.heap; blank; SLOTS]
    }

    fn check(self) -> Result<Call, AllocError>
        ensures { IfOk result (λ call. step_of call ≡ check_step (replicate self.size 0) all_slots) }
    {
        let row = vec![in self.heap; 0u16; self.size]?;
        let slots = self.slots()?;
        Ok(Call::Check(row, slots))
    }

    fn question(self, body: &[u8]) -> Result<Call, AllocError>
        ensures { IfOk result (λ call. step_of call ≡ cofactor_step (pairs_from (min self.n 8) (slice_index (numbers_of body.now) 0) (drop 1 (numbers_of body.now))) (replicate self.size 0) all_slots) }
    {
        let pairs = self.pairs(body)?;
        let row = vec![in self.heap; 0u16; self.size]?;
        let slots = self.slots()?;
        Ok(Call::Cofactors(pairs, row, slots))
    }
}

// What a record asks of a book with `size` terms.
pub(crate) fn call_of(heap: Global, size: usize, placed: Placed<'_>) -> Result<Call, AllocError>
    ensures { IfOk result (λ call. step_of call ≡ made_call (min placed.entry.variables 8) size (seen placed.entry).kind (numbers_of (seen placed.entry).body)) }
{
    let maker = Maker {
        heap,
        n: placed.variables,
        size,
    };
    match placed.record {
        Record::Term(body) => Ok(Call::Term(maker.term(body))),
        Record::Close => Ok(Call::Close),
        Record::Rule(body) => maker.rule(body),
        Record::Check => maker.check(),
        Record::Question(body) => maker.question(body),
        Record::Strike(body) => Ok(Call::Strike(maker.term(body))),
    }
}
