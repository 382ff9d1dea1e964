ghost use Rattle.std.specs.Prelude.{◌≡◌, Bool};
ghost use Rattle.term.specs.Search.{first_place};

// A question that is asked of each element of a slice.
pub trait Test<X> {
    ghost meaning: { Self → X → Bool };

    fn passes(&self, x: &X) -> bool
        ensures { result ≡ meaning self.now x.now };
}

// The place of the first element that passes, counted from 1; 0 where there is none.
pub fn first_place<X, T: Test<X>>(test: &T, xs: &[X]) -> usize
    ensures { result ≡ first_place (T.Test.meaning test.now) xs.now }
{
    for (k, x) in xs.iter().enumerate() {
        if test.passes(x) {
            return k + 1;
        }
    }
    0
}
