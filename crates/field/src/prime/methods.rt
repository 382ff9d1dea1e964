ghost use Rattle.std.specs.Prelude.{◌≡◌, is_ok, MatchResult};
ghost use Rattle.field.specs.Supplied.{among, primes, modulo};
ghost use Rattle.field.specs.Refusal.{number_of};
ghost use Rattle.field.specs.Made.{modulus};
ghost use Rattle.field.specs.Listed.{prime_lawful};

use crate::field::{Field, read_code};
use crate::prime::Prime;
use crate::refusal::Refusal;

impl Prime {
    // The field modulo p, where p is 2, 3, 5, 7, 11, 13, 17, 19, 23, 29 or 31.
    pub fn new(p: u16) -> Result<Prime, Refusal>
        ensures granted { is_ok result ≡ among primes p }
        ensures made { MatchResult result (λ f. modulus f ≡ p) (λ e. number_of e ≡ 17) }
    {
        match p {
            2 | 3 | 5 | 7 | 11 | 13 | 17 | 19 | 23 | 29 | 31 => Ok(Prime { p }),
            _ => Err(Refusal::UnknownField),
        }
    }
}

impl Field for Prime {
    ghost meaning = { λ f. modulo (modulus f) };

    ghost lawful = { λ f. prime_lawful f.p f.listed };

    fn order(&self) -> u16 {
        self.p
    }

    fn sum(&self, a: u16, b: u16) -> u16 {
        (read_code(self.p, a) + read_code(self.p, b)) % self.p
    }

    fn negative(&self, a: u16) -> u16 {
        (self.p - read_code(self.p, a)) % self.p
    }

    fn product(&self, a: u16, b: u16) -> u16 {
        (read_code(self.p, a) * read_code(self.p, b)) % self.p
    }
}
