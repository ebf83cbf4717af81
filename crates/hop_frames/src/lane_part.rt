// Parts of the lane bytes that were received.
ghost use Rattle.std.specs.Prelude.{◌≡◌, ◌+◌, ◌≤◌, length, take, drop};
ghost use Rattle.qkd_base.specs.LaneBytes.{lane_octets};
ghost use Rattle.hop_frames.specs.Frame.{number_of};

use link_segments::Segments;
use qkd_base::Way;

// Fills the buffer with the bytes of a lane from an offset on.
pub fn lane_part(held: &Segments, way: Way, off: u64, into: &mut [u8])
    requires { off + length into.old ≤ length (lane_octets way held.now.blocks) }
    ensures { into.new ≡ take (length into.old) (drop off (lane_octets way held.now.blocks)) }
{
    match held.lane_bytes(way, off, into) {
        Ok(()) => {}
        Err(_) => unreachable!(),
    }
}

// The 8 bytes of a lane at an offset, as a number.
pub fn lane_number(held: &Segments, way: Way, off: u64) -> u64
    requires { off + 8 ≤ length (lane_octets way held.now.blocks) }
    ensures { result ≡ number_of (drop off (lane_octets way held.now.blocks)) }
{
    let mut octets = [0u8; 8];
    lane_part(held, way, off, &mut octets);
    u64::from_be_bytes(octets)
}
