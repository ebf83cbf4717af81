ghost use Rattle.std.specs.Prelude.{◌≡◌, ◌-◌, ◌^◌, ◌↔◌, IsNone, IfSome};
ghost use Rattle.gf64.specs.Field.{product, power};

use crate::product::{mul, square};

// The product of a^2, a^4, a^8 and so on up to a^(2^63).
fn power_of_the_inverse(a: u64) -> u64
    ensures { result ≡ power a (2 ^ 64 - 2) }
{
    let mut last_square = a;
    let mut inverse = 1;
    for _i in 0..63u32 {
        last_square = square(last_square);
        inverse = mul(inverse, last_square);
    }
    inverse
}

/// The element whose product with `a` is 1. Each element but 0 has one.
pub fn inverse(a: u64) -> Option<u64>
    ensures none { IsNone result ↔ (a ≡ 0) }
    ensures product { IfSome result (λ b. product a b ≡ 1) }
{
    if a == 0 {
        return None;
    }
    Some(power_of_the_inverse(a))
}
