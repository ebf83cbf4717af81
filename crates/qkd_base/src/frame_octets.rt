// A buffer for a frame.

/// A buffer for the octets of one frame. A frame has at most 585 octets, and the buffer's other octets mean nothing.
#[derive(Clone, Copy, Debug)]
pub struct FrameOctets {
    pub octets: [u8; 600],
}

impl FrameOctets {
    ghost use Rattle.std.specs.Prelude.{◌≡◌, replicate};

    /// A buffer of zeros.
    pub fn new() -> Self
        ensures { result.octets ≡ replicate 600 0 }
    {
        FrameOctets { octets: [0; 600] }
    }
}
