// The header of a frame.
ghost use Rattle.std.specs.Prelude.{◌≡◌, ◌+◌, ◌≤◌, ◌<◌, ◌^◌, length, take, IfOk};
ghost use Rattle.std.specs.Int.{w16, from_be_bytes};
ghost use Rattle.qkd_base.specs.Lane.{way_number};
ghost use Rattle.hop_frames.specs.Frame.{header, number_of};
ghost use Rattle.hop_frames.specs.Opening.{header_of, on_lane};

use crate::OpenRefusal;
use crate::mask::put;
use crate::parts::after;
use qkd_base::{Lane, Way};

/// The fields of a header whose values are not fixed.
#[derive(Clone, Copy, Debug, PartialEq, Eq)]
pub struct Header {
    pub link: u8,
    pub way: u8,
    /// The payload's length in octets.
    pub size: u16,
    /// The offset in the lane of the first byte that masks the payload.
    pub offset: u64,
}

// The octet of a way.
fn way_octet(way: Way) -> u8
    ensures { result ≡ way_number way }
{
    match way {
        Way::Up => 0,
        Way::Down => 1,
    }
}

// Writes a header to the front of a buffer.
pub fn put_header(octets: &mut [u8], lane: &Lane, offset: u64, size: u16)
    requires { 16 ≤ length octets.old }
    ensures { take 16 octets.new ≡ header lane.now offset size }
{
    put(octets, 0, &[1, lane.link.get(), way_octet(lane.way), 0]);
    put(octets, 4, &size.to_be_bytes());
    put(octets, 6, &[0, 0]);
    put(octets, 8, &offset.to_be_bytes());
}

// The first 8 octets as a number, big-endian.
pub fn number_at(octets: &[u8]) -> u64
    requires { 8 ≤ length octets.now }
    ensures { result ≡ number_of octets.now }
{
    let mut first = [0u8; 8];
    first.copy_from_slice(&octets[..8]);
    u64::from_be_bytes(first)
}

// The first two octets as a number, big-endian.
fn short_at(octets: &[u8]) -> u16
    requires { 2 ≤ length octets.now }
    ensures { result ≡ from_be_bytes w16 (take 2 octets.now) }
{
    u16::from_be_bytes([octets[0], octets[1]])
}

// The header of octets that have the form of a frame, or the place at which they don't.
#[tactic(auto, unfolding(crate::specs::Opening::header_of))]
pub fn header_of(frame: &[u8]) -> Result<Header, OpenRefusal>
    ensures header { result ≡ header_of frame.now }
    ensures form { IfOk result (λ h. (length frame.now ≡ 24 + h.size) × (8 ≤ h.offset) × (h.offset + h.size + 8 < 2 ^ 64)) }
{
    if frame.len() < 24 {
        return Err(OpenRefusal::NotAFrame(frame.len()));
    }
    let header = Header {
        link: frame[1],
        way: frame[2],
        size: short_at(after(frame, 4)),
        offset: number_at(after(frame, 8)),
    };
    let size = u64::from(header.size);
    if frame[0] != 1 {
        return Err(OpenRefusal::NotAFrame(0));
    }
    if frame[3] != 0 {
        return Err(OpenRefusal::NotAFrame(3));
    }
    if size == 0 || frame.len() as u64 != 24 + size {
        return Err(OpenRefusal::NotAFrame(4));
    }
    if frame[6] != 0 || frame[7] != 0 {
        return Err(OpenRefusal::NotAFrame(6));
    }
    if header.offset < 8 || u64::MAX - 8 - size < header.offset {
        return Err(OpenRefusal::NotAFrame(8));
    }
    Ok(header)
}

// The header, if it is that of a frame on this lane.
#[tactic(auto, unfolding(crate::specs::Opening::on_lane))]
pub fn on_lane(header: Header, lane: &Lane) -> Result<Header, OpenRefusal>
    ensures lane { result ≡ on_lane lane.now header }
    ensures same { IfOk result (λ h. h ≡ header) }
{
    if header.link == lane.link.get() && header.way == way_octet(lane.way) {
        Ok(header)
    } else {
        Err(OpenRefusal::WrongLane {
            link: header.link,
            way: header.way,
        })
    }
}
