// Giving and striking rules.
ghost use Rattle.std.specs.Prelude.{◌≡◌, ℕ, ◌≤◌, map, length, take, Some, None};
ghost use Rattle.book.specs.Judge.{judge_rule, judge_strike, granted, on_grant};
ghost use Rattle.book.specs.Effects.{kept_row as row_kept, with_row};
ghost use Rattle.book.specs.Kept.{ledger};

use crate::book::Book;
use crate::phase::Phase;
use crate::refusal::Refusal;
use algebra::Term;
use field::Field;

// Each code of the row times the inverse, in the first places of 32.
fn kept_row<F: Field>(f: &F, row: &[u16], inverse: u16) -> [u16; 32]
    requires { length row.now ≤ 32 }
    ensures codes { take (length row.now) result ≡ map (λ (c : ℕ). (F.Field.meaning f.now).product c inverse) row.now }
    ensures long { length result ≡ 32 }
{
    let mut codes = [0u16; 32]; // on the stack: the library has no heap
    let kept = &mut codes[..row.len()];
    kept.copy_from_slice(row);
    for code in kept.iter_mut() {
        *code = f.product(*code, inverse);
    }
    codes
}

impl<F: Field> Book<F> {
    // Gives the border term `e` the rule whose leading code is `k`: the book keeps each code of the row times the inverse of `k`. The three come apart, as a solver writes them.
    pub fn rule(&mut self, e: Term, k: u16, row: &[u16]) -> Result<(), Refusal>
        ensures answer { result ≡ granted (judge_rule (F.Field.meaning self.old.field).order (ledger self.old.contents) e k row.now) tt }
        ensures after { ledger self.new.contents ≡ on_grant (judge_rule (F.Field.meaning self.old.field).order (ledger self.old.contents) e k row.now) (with_row (ledger self.old.contents) e (Some (row_kept (F.Field.meaning self.old.field) k row.now))) (ledger self.old.contents) }
        ensures field { self.new.field ≡ self.old.field }
    {
        let place = self.judge_rule(&e, k, row)?;
        let inverse = self.field.inverse(k).unwrap_or(0);
        let codes = kept_row(&self.field, row, inverse);
        self.contents.rules.rows[place - 1] = Some(codes);
        self.contents.phase = Phase::Closed; // no verdict outlives a replaced rule
        Ok(())
    }

    // Takes the rule of the border term `e` away.
    pub fn strike(&mut self, e: Term) -> Result<(), Refusal>
        ensures answer { result ≡ granted (judge_strike (ledger self.old.contents) e) tt }
        ensures after { ledger self.new.contents ≡ on_grant (judge_strike (ledger self.old.contents) e) (with_row (ledger self.old.contents) e None) (ledger self.old.contents) }
        ensures field { self.new.field ≡ self.old.field }
    {
        let place = self.judge_strike(&e)?;
        self.contents.rules.rows[place - 1] = None;
        self.contents.phase = Phase::Closed; // nor a struck one
        Ok(())
    }
}
