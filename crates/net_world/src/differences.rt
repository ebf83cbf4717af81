// Where two lists differ.
ghost use Rattle.std.specs.Prelude.{◌≡◌, ◌≤◌, length};
ghost use Rattle.net_world.specs.Veiled.{differences};

/// The number of places at which two lists of the same length differ.
pub fn differences(a: &[u8], b: &[u8]) -> usize
    requires { length a.now ≡ length b.now }
    ensures count { result ≡ differences a.now b.now }
    ensures few { result ≤ length a.now }
{
    let mut count = 0;
    for (place, octet) in a.iter().enumerate() {
        if *octet != b[place] {
            count += 1;
        }
    }
    count
}
