ghost use Rattle.std.specs.Prelude.{◌≡◌, ℕ};
ghost use Rattle.field.specs.Arithmetic.{ring};
ghost use Rattle.algebra.specs.Walk.{all_zero};
ghost use Rattle.row.specs.Sums.{combined, add_multiple, add_at, subtract as subtracted, zeros_like};

use field::Field;

// Combines each code of `out` with the code beside it in `row`, as far as both go.
fn combine<H: Fn(u16, u16) -> u16>(out: &mut [u16], row: &[u16], h: H)
    requires { H.IsAlwaysCallable h }
    ensures { (g : ℕ → ℕ → ℕ) → ((a b r : ℕ) → H.post h a b r → r ≡ g a b) → out.new ≡ combined g out.old row.now }
{
    let size = out.len().min(row.len());
    // By index: after a loop over a zipped `iter_mut` a proof knows no code of `out`.
    for k in 0..size {
        out[k] = h(out[k], row[k]);
    }
}

// Functions on slices and no type of row: the codes are a caller's, a stack's or a book's.

// Adds `c` times `row` to `out`, code by code.
pub fn add_multiple<F: Field>(f: &F, out: &mut [u16], c: u16, row: &[u16])
    ensures { out.new ≡ add_multiple (ring (F.Field.meaning f.now)) out.old c row.now }
{
    combine(out, row, |a, b| f.sum(a, f.product(c, b)));
}

// Adds `c` at a place counted from 1.
pub(crate) fn add_at<F: Field>(f: &F, out: &mut [u16], place: usize, c: u16)
    ensures { out.new ≡ add_at (ring (F.Field.meaning f.now)) out.old place c }
{
    if 1 <= place && place <= out.len() {
        out[place - 1] = f.sum(out[place - 1], c);
    }
}

// Takes `row` away from `out`, code by code.
pub fn subtract<F: Field>(f: &F, out: &mut [u16], row: &[u16])
    ensures { out.new ≡ subtracted (ring (F.Field.meaning f.now)) out.old row.now }
{
    combine(out, row, |a, b| f.sum(a, f.negative(b)));
}

pub fn clear(row: &mut [u16])
    ensures { row.new ≡ zeros_like row.old }
{
    row.fill(0);
}

pub fn is_zero(row: &[u16]) -> bool
    ensures { result ≡ all_zero row.now }
{
    row.iter().all(|c| *c == 0)
}
