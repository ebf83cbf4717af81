// The result of putting a frame on a wire.
ghost use Rattle.std.specs.Prelude.{◌≡◌, Option, Some, None};
ghost use Rattle.lane_sender.specs.Sending.{sent, number_of};

use qkd_base::FrameOctets;
use source_devices::WireFailed;

/// The result of putting a frame on its lane's wire. A frame that the wire refused keeps its lane bytes, and may be put again
/// with the same octets.
#[derive(Clone, Copy, Debug)]
pub enum Sent {
    /// The wire took the frame under this number.
    Placed {
        number: u64,
        offset: u64,
        /// The frame's length in octets.
        length: u16,
        frame: FrameOctets,
    },
    /// The wire refused the frame.
    Unsent {
        cause: WireFailed,
        offset: u64,
        /// The frame's length in octets.
        length: u16,
        frame: FrameOctets,
    },
}

/// The result of putting a frame: the wire's answer, with the frame, its offset and its length.
pub fn answered(
    offset: u64,
    length: u16,
    frame: &FrameOctets,
    answer: Result<u64, WireFailed>,
) -> Sent
    ensures { result ≡ sent offset length frame.now answer }
{
    let frame = *frame;
    match answer {
        Ok(number) => Sent::Placed {
            number,
            offset,
            length,
            frame,
        },
        Err(cause) => Sent::Unsent {
            cause,
            offset,
            length,
            frame,
        },
    }
}

impl Sent {
    /// The frame's number on the wire, if the wire took it.
    pub fn number(&self) -> Option<u64>
        ensures { result ≡ number_of self.now }
    {
        match self {
            Sent::Placed { number, .. } => Some(*number),
            Sent::Unsent { .. } => None,
        }
    }
}
