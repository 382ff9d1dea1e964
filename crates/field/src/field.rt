// A field of 2 to 256 elements on the codes 0 to order − 1. A code that is not below the order is read as 0.
ghost use Rattle.std.specs.Prelude.{◌≡◌};
ghost use Rattle.field.specs.Arithmetic.{Arithmetic, Lawful, read};

pub trait Field {
    ghost meaning: { Self → Arithmetic };

    fn order(&self) -> u16
        ensures { result ≡ (meaning self.now).order };

    fn sum(&self, a: u16, b: u16) -> u16
        ensures { result ≡ (meaning self.now).sum a b };

    fn negative(&self, a: u16) -> u16
        ensures { result ≡ (meaning self.now).negative a };

    fn product(&self, a: u16, b: u16) -> u16
        ensures { result ≡ (meaning self.now).product a b };

    // The code whose product with `a` is 1; none for 0.
    fn inverse(&self, a: u16) -> Option<u16>
        ensures { result ≡ (meaning self.now).inverse a }
    {
        // A loop: over a binary field `find`, `filter` and `position` take three times as long or more, since what a product needs of `a` is then made anew for each code.
        for b in 0..self.order() {
            if self.product(a, b) == 1 {
                return Some(b);
            }
        }
        None
    }

    ghost lawful: { (f : Self) → Lawful (meaning f) };
}

// The code itself where it is below the order, else 0.
pub fn read_code(order: u16, code: u16) -> u16
    ensures { result ≡ read order code }
{
    if code < order { code } else { 0 }
}
