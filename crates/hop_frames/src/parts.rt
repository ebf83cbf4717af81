// Parts of octets.
ghost use Rattle.std.specs.Prelude.{◌≡◌, ◌≤◌, length, take, drop};

// The first `size` octets.
pub fn prefix(octets: &[u8], size: usize) -> &[u8]
    requires { size ≤ length octets.now }
    ensures { result.now ≡ take size octets.now }
{
    &octets[..size]
}

// The octets behind the first `size` ones.
pub fn after(octets: &[u8], size: usize) -> &[u8]
    requires { size ≤ length octets.now }
    ensures { result.now ≡ drop size octets.now }
{
    &octets[size..]
}
