// The field of order 2^k: polynomials in t over the bits, reduced by t^k + t + 1.
ghost use Rattle.std.specs.Prelude.{T};
ghost use Rattle.field.specs.Supplied.{among, binary_sizes};

pub mod methods;

// No value exists with a k that is not in the list.
#[derive(Clone, Copy, Drop)]
pub struct Binary {
    k: u16,
    ghost listed: { T (among binary_sizes k) },
}
