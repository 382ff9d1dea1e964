// The field of residues modulo a listed prime.
ghost use Rattle.std.specs.Prelude.{T};
ghost use Rattle.field.specs.Supplied.{among, primes};

pub mod methods;

// No value exists with a modulus that is not in the list.
#[derive(Clone, Copy, Drop)]
pub struct Prime {
    p: u16,
    ghost listed: { T (among primes p) },
}
