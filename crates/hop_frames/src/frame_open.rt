// How frames are opened.
ghost use Rattle.std.specs.Prelude.{◌≡◌, ℕ, ◌+◌, ◌≤◌, ◌<◌, ◌^◌, length, take, drop, Result, Ok, IfOk};
ghost use Rattle.net_model.specs.declared.payload.Payload.{Payload as PayloadValue};
ghost use Rattle.frame_codec.specs.Reading.{Reads, payload_of};
ghost use Rattle.qkd_base.specs.LaneBytes.{lane_octets};
ghost use Rattle.hop_frames.specs.Frame.{masked};
ghost use Rattle.hop_frames.specs.Opening.{Opens, checked, tagged, opened_at, open_of};

use crate::header::{Header, header_of, number_at, on_lane};
use crate::lane_part::{lane_number, lane_part};
use crate::mask::mask_all;
use crate::parts::{after, prefix};
use crate::{OpenRefusal, Opened};
use frame_codec::{PayloadRefusal, read};
use link_segments::Segments;
use net_model::Payload;
use qkd_base::{Lane, Way};
use std::alloc::Global;
use wc_tags::tag;

// Whether enough lane bytes were received, and whether they give the frame's tag.
#[tactic(auto, unfolding(crate::specs::Opening::tagged))]
fn tagged(frame: &[u8], header: Header, held: &Segments, way: Way) -> Result<Header, OpenRefusal>
    requires size { length frame.now ≡ 24 + header.size }
    requires offset { 8 ≤ header.offset }
    requires fits { header.offset + header.size + 8 < 2 ^ 64 }
    ensures tagged { result ≡ tagged (lane_octets way held.now.blocks) frame.now header }
    ensures reach { IfOk result (λ h. (h ≡ header) × (h.offset + h.size + 8 ≤ length (lane_octets way held.now.blocks))) }
{
    let have = held.received(way);
    let end = header.offset + u64::from(header.size);
    if have < end + 8 {
        return Err(OpenRefusal::NoBits(have));
    }
    let size = usize::from(header.size);
    let given = number_at(after(frame, 16 + size));
    let key = lane_number(held, way, 0);
    let mask = lane_number(held, way, end);
    let computed = tag(key, prefix(frame, 16 + size), mask);
    if given == computed {
        Ok(header)
    } else {
        Err(OpenRefusal::BadTag { given, computed })
    }
}

// The header of a frame that passes all tests but that of its payload.
#[tactic(auto, unfolding(crate::specs::Opening::checked))]
fn checked(lane: &Lane, frame: &[u8], held: &Segments) -> Result<Header, OpenRefusal>
    ensures checked { result ≡ checked lane.now (lane_octets lane.now.way held.now.blocks) frame.now }
    ensures form { IfOk result (λ h. (length frame.now ≡ 24 + h.size) × (h.offset + h.size + 8 ≤ length (lane_octets lane.now.way held.now.blocks))) }
{
    let header = header_of(frame)?;
    let header = on_lane(header, lane)?;
    tagged(frame, header, held, lane.way)
}

// Reads the payload that the octets mask at an offset of the lane. `room` is for its octets.
fn read_in(
    alloc: Global,
    octets: &[u8],
    held: &Segments,
    way: Way,
    offset: u64,
    room: &mut [u8],
) -> Result<Payload, PayloadRefusal>
    requires reach { offset + length octets.now ≤ length (lane_octets way held.now.blocks) }
    requires room { length octets.now ≤ length room.old }
    ensures { Reads result (payload_of (masked octets.now (drop offset (lane_octets way held.now.blocks)))) }
{
    let clear = &mut room[..octets.len()];
    lane_part(held, way, offset, clear);
    mask_all(clear, octets);
    read(alloc, clear)
}

// Reads the payload that at most 65,535 octets mask, in a buffer of its own.
fn read_long(
    alloc: Global,
    octets: &[u8],
    held: &Segments,
    way: Way,
    offset: u64,
) -> Result<Payload, PayloadRefusal>
    requires reach { offset + length octets.now ≤ length (lane_octets way held.now.blocks) }
    requires size { length octets.now < 65536 }
    ensures { Reads result (payload_of (masked octets.now (drop offset (lane_octets way held.now.blocks)))) }
{
    let mut room = [0u8; 65_536];
    read_in(alloc, octets, held, way, offset, &mut room)
}

// Reads the payload that at most 600 octets mask. As a function of its own it lets only long frames need a large buffer.
fn read_short(
    alloc: Global,
    octets: &[u8],
    held: &Segments,
    way: Way,
    offset: u64,
) -> Result<Payload, PayloadRefusal>
    requires reach { offset + length octets.now ≤ length (lane_octets way held.now.blocks) }
    requires size { length octets.now ≤ 600 }
    ensures { Reads result (payload_of (masked octets.now (drop offset (lane_octets way held.now.blocks)))) }
{
    let mut room = [0u8; 600];
    read_in(alloc, octets, held, way, offset, &mut room)
}

// The payload with its offset, or the reason why there is none.
fn opened(offset: u64, payload: Result<Payload, PayloadRefusal>) -> Result<Opened, OpenRefusal>
    ensures { (read : Result PayloadValue ℕ) → Reads payload read → Opens result (opened_at offset read) }
{
    match payload {
        Ok(payload) => Ok(Opened { offset, payload }),
        Err(PayloadRefusal::NotAPayload(place)) => Err(OpenRefusal::NotAPayload(place)),
        Err(PayloadRefusal::Memory) => Err(OpenRefusal::Memory),
    }
}

/// Opens a frame that came on a lane, with the lane bytes received so far. The first error that applies is returned:
///
/// - `NotAFrame`: there are fewer than 24 octets (place: their number); the version isn't 1 (place 0); octet 3 isn't 0 (place
///   3); the length is 0 or not that of the octets (place 4); octets 6 and 7 aren't 0 (place 6); or the offset is below 8, or
///   more than 2^64 - 1 together with length and tag (place 8).
/// - `WrongLane`: the link and the way are not the lane's.
/// - `NoBits`: the frame ends behind the bytes received.
/// - `BadTag`: the tag isn't the one that the lane's bytes give. Wegman and Carter 1981, section 4, bound how often octets
///   that nobody sealed with these bytes pass.
/// - `NotAPayload`: the payload is not in its grammar.
/// - `Memory`: memory ran out. The frame can be opened.
#[tactic(auto, unfolding(crate::specs::Opening::open_of))]
pub fn open(alloc: Global, lane: Lane, frame: &[u8], held: &Segments) -> Result<Opened, OpenRefusal>
    ensures { Opens result (open_of lane (lane_octets lane.way held.now.blocks) frame.now) }
{
    let header = checked(&lane, frame, held)?;
    let size = usize::from(header.size);
    let octets = prefix(after(frame, 16), size);
    let payload = if size <= 600 {
        read_short(alloc, octets, held, lane.way, header.offset)
    } else {
        read_long(alloc, octets, held, lane.way, header.offset)
    };
    opened(header.offset, payload)
}
