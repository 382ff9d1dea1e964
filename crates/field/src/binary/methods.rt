ghost use Rattle.std.specs.Prelude.{◌≡◌, ◌*◌, ◌^◌, ◌<◌, is_ok, MatchResult};
ghost use Rattle.field.specs.Supplied.{among, binary_sizes, binary, bit};
ghost use Rattle.field.specs.Refusal.{number_of};
ghost use Rattle.field.specs.Made.{size};
ghost use Rattle.field.specs.Listed.{binary_lawful};

use crate::binary::Binary;
use crate::field::{Field, read_code};
use crate::refusal::Refusal;

impl Binary {
    // The field of order 2^k, where k is 2, 3 or 4.
    pub fn new(k: u16) -> Result<Binary, Refusal>
        ensures granted { is_ok result ≡ among binary_sizes k }
        ensures made { MatchResult result (λ f. size f ≡ k) (λ e. number_of e ≡ 17) }
    {
        match k {
            2 | 3 | 4 => Ok(Binary { k }),
            _ => Err(Refusal::UnknownField),
        }
    }

    // t times the polynomial `a`.
    fn by_t(&self, a: u16) -> u16
        requires { a < 2 ^ size self.now }
        ensures value { result ≡ (binary (size self.now)).product 2 a }
        ensures code { result < 2 ^ size self.now }
    {
        let order = self.order();
        let doubled = a * 2;
        if doubled < order {
            doubled
        } else {
            // the reduction polynomial t^k + t + 1
            doubled ^ (order + 0b11)
        }
    }
}

// The coefficient of t^i in `b`, times `a`.
fn part(b: u16, i: u16, a: u16) -> u16
    requires { i < 16 }
    ensures { result ≡ bit i b * a }
{
    if (b >> i) % 2 == 0 { 0 } else { a }
}

impl Field for Binary {
    ghost meaning = { λ f. binary (size f) };

    ghost lawful = { λ f. binary_lawful f.k f.listed };

    fn order(&self) -> u16 {
        1 << self.k
    }

    fn sum(&self, a: u16, b: u16) -> u16 {
        let order = self.order();
        read_code(order, a) ^ read_code(order, b)
    }

    fn negative(&self, a: u16) -> u16 {
        read_code(self.order(), a)
    }

    fn product(&self, a: u16, b: u16) -> u16 {
        let order = self.order();
        let a = read_code(order, a);
        let b = read_code(order, b);
        // Written out, since k is at most 4: a loop would carry two codes, the sum so far and the shifted one, and be no plainer.
        let at = self.by_t(a);
        let att = self.by_t(at);
        let attt = self.by_t(att);
        part(b, 0, a) ^ part(b, 1, at) ^ part(b, 2, att) ^ part(b, 3, attt)
    }
}
