ghost use Rattle.std.specs.Prelude.{◌≡◌};
ghost use Rattle.gf64.specs.Field.{product};

use crate::multiples::Multiples;

/// The product in the field.
pub fn mul(a: u64, b: u64) -> u64
    ensures { result ≡ product a b }
{
    Multiples::of(a).times(b)
}

/// The product of an element with itself.
pub fn square(a: u64) -> u64
    ensures { result ≡ product a a }
{
    mul(a, a)
}
