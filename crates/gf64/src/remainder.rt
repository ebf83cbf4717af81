ghost use Rattle.std.specs.Prelude.{◌≡◌, ◌<◌, ◌*◌, ◌^◌};
ghost use Rattle.gf64.specs.Field.{remainder};

const LOW_HALF: u128 = (1 << 64) - 1;

// x^4 + x^3 + x + 1, which is x^64 in the field.
const LOW_TERMS: u64 = 27;

// Replaces x^64 by x^4 + x^3 + x + 1 in the upper half.
fn fold(p: u128) -> u128
    requires { p < 2 ^ 127 }
    ensures same { remainder 63 result ≡ remainder 63 p }
    ensures degree { result < 2 ^ 68 }
    ensures done { p < 2 ^ 68 → result < 2 ^ 64 }
{
    let high = p >> 64;
    (p & LOW_HALF) ^ (high << 4) ^ (high << 3) ^ (high << 1) ^ high
}

/// The remainder of a polynomial product by the modulus.
pub fn reduce(p: u128) -> u64
    requires { p < 2 ^ 127 }
    ensures { result ≡ remainder 63 p }
{
    fold(fold(p)) as u64
}

// The product of an element and x.
pub fn doubled(a: u64) -> u64
    ensures { result ≡ remainder 63 (2 * a) }
{
    (a << 1) ^ (LOW_TERMS * (a >> 63))
}
