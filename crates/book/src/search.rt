ghost use Rattle.std.specs.Prelude.{◌≡◌, ◌≤◌, Bool, length, IfSome};
ghost use Rattle.std.specs.Fn.{FnReturnsAt};
ghost use Rattle.term.specs.Search.{first_place, found};

// The place of the first element that passes, counted from 1.
pub(crate) fn first_place<X, P: Fn(&X) -> bool>(xs: &[X], passes: P) -> Option<usize>
    requires { P.IsAlwaysCallable passes }
    ensures place { (f : X → Bool) → ((x : X) (b : Bool) → FnReturnsAt P.Fn passes x b → b ≡ f x) → result ≡ found (first_place f xs.now) }
    ensures bound { IfSome result (λ k. k ≤ length xs.now) }
{
    // A loop: of `position`, with a closure that calls `passes`, a proof does not learn what each call said.
    for (k, x) in xs.iter().enumerate() {
        if passes(x) {
            return Some(k + 1);
        }
    }
    None
}
