// How frames are sealed.
ghost use Rattle.std.specs.Prelude.{◌≡◌, ℕ, ◌+◌, ◌≤◌, ◌<◌, ◌^◌, List, length, take, drop};
ghost use Rattle.net_model.specs.Facts.{payload_len, IsWellFormed};
ghost use Rattle.frame_codec.specs.Payload.{IsPayload, payload_octets};
ghost use Rattle.hop_frames.specs.Frame.{framed, hash_key, spell};

use crate::header::{number_at, put_header};
use crate::mask::{mask_all, put};
use crate::parts::{after, prefix};
use frame_codec::spell;
use net_model::{Payload, spelled_len};
use pad_ledger::PadRange;
use qkd_base::{FrameOctets, Lane};
use wc_tags::tag;

// Makes a frame of a payload of `size` octets that stands behind the room of the header.
#[tactic(auto, unfolding(crate::specs::Frame::framed))]
fn frame(into: &mut [u8], lane: &Lane, offset: u64, key: u64, pads: &[u8], size: usize)
    requires size { size ≤ 561 }
    requires pads { size + 8 ≤ length pads.now }
    requires room { 24 + size ≤ length into.old }
    ensures { take (24 + size) into.new ≡ framed lane.now offset key pads.now (take size (drop 16 into.old)) }
{
    put_header(&mut into[..16], lane, offset, size as u16);
    mask_all(&mut into[16..16 + size], pads);
    let mask = number_at(after(pads, size));
    let tag = tag(key, prefix(into, 16 + size), mask);
    put(into, 16 + size, &tag.to_be_bytes());
}

/// Writes the frame of a payload on a lane to the front of a buffer, and returns its length, 41 to 585 octets. The call uses
/// up the range. `pads` are the lane's bytes of the range: they mask the payload and then its tag, and no other frame gets
/// them (one-time pad). `key` is the lane's first 8 bytes as a number. The buffer behind the frame stays as it was, so no
/// octet of the clear payload is left there.
pub fn seal(
    range: PadRange,
    lane: Lane,
    key: u64,
    pads: &[u8],
    payload: &Payload,
    into: &mut FrameOctets,
) -> usize
    requires formed { IsWellFormed payload.now }
    requires size { range.len ≡ payload_len payload.now + 8 }
    requires pads { length pads.now ≡ range.len }
    ensures len { result ≡ 24 + payload_len payload.now }
    // The frame is the same whatever the lane's other bytes are.
    ensures frame { (bytes : List ℕ) → key ≡ hash_key bytes → pads.now ≡ take range.len (drop range.start bytes)
        → take result into.new.octets ≡ spell lane range.start bytes (payload_octets payload.now) }
    ensures rest { drop result into.new.octets ≡ drop result into.old.octets }
    ensures grammar { IsPayload payload.now }
{
    let offset = range.start();
    range.spend();
    let size = usize::from(spelled_len(payload));
    spell(payload, into, 16);
    frame(
        &mut into.octets[..24 + size],
        &lane,
        offset,
        key,
        pads,
        size,
    );
    24 + size
}
