// Bytes of a lane that are claimed for one frame.
ghost use Rattle.std.specs.Prelude.{◌≡◌, ℕ, ◌+◌, ◌≤◌, List, length, take, drop};
ghost use Rattle.net_model.specs.Facts.{payload_len, IsWellFormed};
ghost use Rattle.frame_codec.specs.Payload.{IsPayload, payload_octets};
ghost use Rattle.hop_frames.specs.Frame.{hash_key, spell};
ghost use Rattle.lane_sender.specs.Lane.{frame_need};

use hop_frames::seal;
use net_model::{Payload, spelled_len};
use pad_ledger::PadRange;
use qkd_base::{FrameOctets, Lane};

/// Bytes of a lane that are claimed for one frame. The value has all that sealing the frame needs of the lane, so other
/// threads may claim bytes and put frames meanwhile. Like its range it can be neither copied nor dropped.
#[derive(Debug)]
pub struct Claimed {
    pub range: PadRange,
    /// The lane's hash key.
    pub key: u64,
    /// The claimed bytes, at the front.
    pub pads: FrameOctets,
}

// The first 8 bytes as a number, big-endian.
fn hash_key(bytes: &[u8]) -> u64
    requires { 8 ≤ length bytes.now }
    ensures { result ≡ hash_key bytes.now }
{
    let mut octets = [0u8; 8];
    octets.copy_from_slice(&bytes[..8]);
    u64::from_be_bytes(octets)
}

// The bytes of a lane that a range covers.
fn part<'a>(bytes: &'a [u8], range: &PadRange) -> &'a [u8]
    requires { range.now.start + range.now.len ≤ length bytes.now }
    ensures { result.now ≡ take range.now.len (drop range.now.start bytes.now) }
{
    let start = range.start() as usize;
    let size = range.len() as usize;
    &bytes[start..start + size]
}

// Writes octets to the front of a buffer.
fn put_front(into: &mut [u8], octets: &[u8])
    requires { length octets.now ≤ length into.old }
    ensures { take (length octets.now) into.new ≡ octets.now }
{
    into[..octets.len()].copy_from_slice(octets);
}

// A buffer of fixed size with these octets at its front.
fn room_of(octets: &[u8]) -> FrameOctets
    requires { length octets.now ≤ 600 }
    ensures { take (length octets.now) result.octets ≡ octets.now }
{
    let mut room = FrameOctets::new();
    put_front(&mut room.octets, octets);
    room
}

/// A claimed range, with the bytes that it covers in its lane.
pub(crate) fn claimed_of(bytes: &[u8], range: PadRange) -> Claimed
    requires key { 8 ≤ length bytes.now }
    requires inside { range.start + range.len ≤ length bytes.now }
    requires short { range.len ≤ 600 }
    ensures range { result.range ≡ range }
    ensures key { result.key ≡ hash_key bytes.now }
    ensures pads { take range.len result.pads.octets ≡ take range.len (drop range.start bytes.now) }
{
    let key = hash_key(bytes);
    let pads = room_of(part(bytes, &range));
    Claimed { range, key, pads }
}

/// Seals a payload with the lane's own bytes of a range, which are not copied first: writes its frame to the front of the
/// buffer, and returns the frame's length, 41 to 585 octets.
pub(crate) fn seal_at(
    bytes: &[u8],
    range: PadRange,
    lane: Lane,
    payload: &Payload,
    into: &mut FrameOctets,
) -> u16
    requires key { 8 ≤ length bytes.now }
    requires inside { range.start + range.len ≤ length bytes.now }
    requires formed { IsWellFormed payload.now }
    requires need { range.len ≡ frame_need payload.now }
    ensures length { result ≡ 24 + payload_len payload.now }
    ensures range { result ≤ 585 }
    ensures frame { take result into.new.octets ≡ spell lane range.start bytes.now (payload_octets payload.now) }
    ensures rest { drop result into.new.octets ≡ drop result into.old.octets }
    ensures grammar { IsPayload payload.now }
{
    let key = hash_key(bytes);
    let pads = part(bytes, &range);
    seal(range, lane, key, pads, payload, into);
    24 + spelled_len(payload)
}

impl Claimed {
    /// Seals a payload: writes its frame to the front of the buffer, and returns the frame's length, 41 to 585 octets. The call
    /// uses up the range.
    pub fn seal(self, lane: Lane, payload: &Payload, into: &mut FrameOctets) -> u16
        requires formed { IsWellFormed payload.now }
        requires need { self.range.len ≡ frame_need payload.now }
        ensures length { result ≡ 24 + payload_len payload.now }
        ensures range { result ≤ 585 }
        // The frame is the same whatever the lane's other bytes are.
        ensures frame { (bytes : List ℕ) → self.key ≡ hash_key bytes → take self.range.len self.pads.octets ≡ take self.range.len (drop self.range.start bytes)
            → take result into.new.octets ≡ spell lane self.range.start bytes (payload_octets payload.now) }
        ensures rest { drop result into.new.octets ≡ drop result into.old.octets }
        ensures grammar { IsPayload payload.now }
    {
        let Claimed { range, key, pads } = self;
        let size = spelled_len(payload);
        let pads = &pads.octets[..usize::from(size) + 8];
        seal(range, lane, key, pads, payload, into);
        24 + size
    }
}
