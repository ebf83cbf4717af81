// The blocks of a manager's lanes.
ghost use Rattle.std.specs.Prelude.{◌≡◌, ◌+◌, ◌*◌, nat_le, length, take, drop, true, false};
ghost use Rattle.qkd_base.specs.LaneBytes.{lane_octets};

use link_segments::Segments;
use qkd_base::Way;

/// Copies a block of a lane, counted from 0. False, with `into` unchanged, if the block wasn't received.
pub fn copy_block(held: &Segments, way: Way, number: u64, into: &mut [u8; 1024]) -> bool
    ensures has { result ≡ nat_le (1024 * number + 1024) (length (lane_octets way held.now.blocks)) }
    ensures block { result ≡ true → into.new ≡ take 1024 (drop (1024 * number) (lane_octets way held.now.blocks)) }
    ensures none { result ≡ false → into.new ≡ into.old }
{
    if number >= held.received(way) / 1024 {
        return false;
    }
    held.lane_bytes(way, 1024 * number, into).is_ok()
}
