// How the bytes of payloads are exchanged.
ghost use Rattle.std.specs.Prelude.{◌≡◌, ◌≤◌, length};
ghost use Rattle.hop_frames.specs.Frame.{masked};
ghost use Rattle.pad_veil.specs.Faults.{LieApart, end_of};
ghost use Rattle.pad_veil.specs.Veil.{exchanged, veil};

use crate::SealedFrame;

/// Xors octets onto the first bytes (one-time pad). Doing so twice gives the bytes back.
pub fn lay_over(bytes: &mut [u8], octets: &[u8])
    requires { length octets.now ≤ length bytes.old }
    ensures { bytes.new ≡ masked bytes.old octets.now }
{
    for (i, octet) in octets.iter().enumerate() {
        bytes[i] ^= *octet;
    }
}

// Exchanges the bytes of one frame's payload.
fn exchange(lane: &mut [u8], frame: &SealedFrame)
    requires equal { length frame.now.old ≡ length frame.now.new }
    requires room { end_of frame.now ≤ length lane.old }
    ensures { lane.new ≡ exchanged frame.now lane.old }
{
    let pads = &mut lane[frame.offset as usize..];
    lay_over(pads, frame.old.as_slice());
    lay_over(pads, frame.new.as_slice());
}

// Exchanges the bytes of each frame's payload.
pub fn exchange_all(lane: &mut [u8], frames: &[SealedFrame])
    requires { LieApart (length lane.old) frames.now }
    ensures { lane.new ≡ veil lane.old frames.now }
{
    for frame in frames {
        exchange(lane, frame);
    }
}
