// How octets are written, in the clear and masked.
ghost use Rattle.std.specs.Prelude.{◌≡◌, ◌+◌, ◌≤◌, ◌++◌, length, take};
ghost use Rattle.hop_frames.specs.Frame.{masked};

// Writes octets at a place.
pub fn put(into: &mut [u8], at: usize, octets: &[u8])
    requires { at + length octets.now ≤ length into.old }
    ensures { take (at + length octets.now) into.new ≡ take at into.old ++ octets.now }
{
    into[at..at + octets.len()].copy_from_slice(octets);
}

// Masks octets where they stand, each by one pad.
pub fn mask_all(octets: &mut [u8], pads: &[u8])
    requires { length octets.old ≤ length pads.now }
    ensures { octets.new ≡ masked octets.old pads.now }
{
    for i in 0..octets.len() {
        octets[i] ^= pads[i];
    }
}
