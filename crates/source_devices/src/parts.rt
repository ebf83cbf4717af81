// Copies of parts of a list.
ghost use Rattle.std.specs.Prelude.{◌≡◌, ◌+◌, ◌≤◌, length, take, drop};

// Fills the buffer with the octets from a place on.
pub(crate) fn copy_part(octets: &[u8], from: usize, into: &mut [u8])
    requires inside { from + length into.old ≤ length octets.now }
    ensures { into.new ≡ take (length into.old) (drop from octets.now) }
{
    let end = from + into.len();
    into.copy_from_slice(&octets[from..end]);
}
