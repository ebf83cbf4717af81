// Rule 14, as to heads: octets that are refused before a receiver looks at their tag.
ghost use Rattle.std.specs.Prelude.{◌≡◌, ◌+◌, ◌≤◌, ◌==◌, ◌&&◌, length, slice_index};
ghost use Rattle.qkd_base.specs.Lane.{way_number};
ghost use Rattle.item_audit.specs.Heads.{short_of, number_of, is_bad_frame, is_wrong_lane, may_refuse_opening, opens, length_in, forges_place, forges_size, forges_fixed, forges, weight, changed_at, is_changed_lane};

use qkd_base::{Lane, Way};
use run_types::{FrameResult, Refusal};

// The number of a way in a frame.
fn way_number(way: Way) -> u8
    ensures { result ≡ way_number way }
{
    match way {
        Way::Up => 0,
        Way::Down => 1,
    }
}

// The first two octets as a number.
fn short_of(octets: &[u8]) -> u16
    requires { 2 ≤ length octets.now }
    ensures { result ≡ short_of octets.now }
{
    u16::from_be_bytes([octets[0], octets[1]])
}

// The first eight octets as a number.
fn number_of(octets: &[u8]) -> u64
    requires { 8 ≤ length octets.now }
    ensures { result ≡ number_of octets.now }
{
    let mut first = [0u8; 8];
    first.copy_from_slice(&octets[..8]);
    u64::from_be_bytes(first)
}

// Whether this may become of octets that are no frame for this octet.
fn is_bad_frame(place: usize, outcome: &FrameResult) -> bool
    ensures { result ≡ is_bad_frame place outcome.now }
{
    match outcome {
        FrameResult::Refused(refusal) => match refusal {
            Refusal::Down => true,
            Refusal::BadFrame { place: told } => *told as usize == place,
            _ => false,
        },
        _ => false,
    }
}

// Whether this may become of a frame that names this lane, another one.
fn is_wrong_lane(link: u8, way: u8, outcome: &FrameResult) -> bool
    ensures { result ≡ is_wrong_lane link way outcome.now }
{
    match outcome {
        FrameResult::Refused(refusal) => match refusal {
            Refusal::Down => true,
            Refusal::WrongLane {
                link: told,
                way: other,
            } => *told == link && *other == way,
            _ => false,
        },
        _ => false,
    }
}

// Whether a frame that uses the first `end` bytes of its lane, and has this tag, may be refused so.
fn may_refuse_opening(end: u128, tag: u64, refusal: Refusal) -> bool
    ensures { result ≡ may_refuse_opening end tag refusal }
{
    match refusal {
        Refusal::Down => true,
        Refusal::NoBits { have } => u128::from(have) < end,
        Refusal::BadTag { given, computed } => given == tag && given != computed,
        Refusal::Memory | Refusal::JournalFull { .. } | Refusal::Stopped => true,
        _ => false,
    }
}

// Whether this may become of such a frame.
fn opens(end: u128, tag: u64, outcome: &FrameResult) -> bool
    ensures { result ≡ opens end tag outcome.now }
{
    match outcome {
        FrameResult::Refused(refusal) => may_refuse_opening(end, tag, *refusal),
        _ => true,
    }
}

// Whether octets name a lane.
fn is_on_lane(lane: &Lane, octets: &[u8]) -> bool
    requires { 3 ≤ length octets.now }
    ensures { result ≡ ((slice_index octets.now 1 == lane.now.link) && (slice_index octets.now 2 == way_number lane.now.way)) }
{
    octets[1] == lane.link.get() && octets[2] == way_number(lane.way)
}

// Whether this may become of as many octets as a frame has, with this offset and a payload of this size.
#[tactic(auto, unfolding(crate::specs::Heads::forges_place))]
fn forges_place(lane: &Lane, octets: &[u8], offset: u64, size: u16, outcome: &FrameResult) -> bool
    requires size { size ≡ length_in octets.now }
    requires octets { 24 + size ≤ length octets.now }
    ensures { result ≡ forges_place lane.now octets.now offset size outcome.now }
{
    let end = u128::from(offset) + u128::from(size) + 8;
    if offset < 8 || u128::from(u64::MAX) < end {
        return is_bad_frame(8, outcome);
    }
    if !is_on_lane(lane, octets) {
        return is_wrong_lane(octets[1], octets[2], outcome);
    }
    opens(end, number_of(&octets[16 + usize::from(size)..]), outcome)
}

// Whether octets 6 and 7 are zero.
fn has_zeros(octets: &[u8]) -> bool
    requires { 8 ≤ length octets.now }
    ensures { result ≡ ((slice_index octets.now 6 == 0) && (slice_index octets.now 7 == 0)) }
{
    octets[6] == 0 && octets[7] == 0
}

// Whether this may become of octets that are enough for a head, with a payload of this size.
#[tactic(auto, unfolding(crate::specs::Heads::forges_size))]
fn forges_size(lane: &Lane, octets: &[u8], size: u16, outcome: &FrameResult) -> bool
    requires size { size ≡ length_in octets.now }
    requires octets { 24 ≤ length octets.now }
    ensures { result ≡ forges_size lane.now octets.now size outcome.now }
{
    if size == 0 || octets.len() != 24 + usize::from(size) {
        return is_bad_frame(4, outcome);
    }
    if !has_zeros(octets) {
        return is_bad_frame(6, outcome);
    }
    forges_place(lane, octets, number_of(&octets[8..]), size, outcome)
}

// Whether this may become of octets that are enough for a head.
#[tactic(auto, unfolding(crate::specs::Heads::forges_fixed))]
fn forges_fixed(lane: &Lane, octets: &[u8], outcome: &FrameResult) -> bool
    requires { 24 ≤ length octets.now }
    ensures { result ≡ forges_fixed lane.now octets.now outcome.now }
{
    if octets[0] != 1 {
        return is_bad_frame(0, outcome);
    }
    if octets[3] != 0 {
        return is_bad_frame(3, outcome);
    }
    forges_size(lane, octets, short_of(&octets[4..]), outcome)
}

/// Whether this may become of octets that anybody could have made.
pub fn forges(lane: &Lane, octets: &[u8], outcome: &FrameResult) -> bool
    ensures { result ≡ forges lane.now octets.now outcome.now }
{
    if octets.len() < 24 {
        return is_bad_frame(octets.len(), outcome);
    }
    forges_fixed(lane, octets, outcome)
}

// What the bit at a place of an octet counts.
fn weight(place: u32) -> u32
    ensures weight { result ≡ weight place }
    ensures some { 1 ≤ result }
{
    if place == 0 {
        128
    } else if place == 1 {
        64
    } else if place == 2 {
        32
    } else if place == 3 {
        16
    } else if place == 4 {
        8
    } else if place == 5 {
        4
    } else if place == 6 {
        2
    } else {
        1
    }
}

// An octet of which the bit at this place has changed.
fn changed_at(place: u32, octet: u8) -> u32
    ensures { result ≡ changed_at place octet }
{
    let octet = u32::from(octet);
    let weight = weight(place);
    if (octet / weight) % 2 == 0 {
        octet + weight
    } else {
        octet.saturating_sub(weight)
    }
}

/// Whether a frame of this lane names another one so, if this bit of its lane has changed: 8 to 15 of the link, 16 to 23 of
/// the way.
pub fn is_changed_lane(lane: &Lane, bit: u32, link: u8, way: u8) -> bool
    ensures { result ≡ is_changed_lane lane.now bit link way }
{
    let (own, own_way) = (lane.link.get(), way_number(lane.way));
    if bit < 16 {
        u32::from(link) == changed_at(bit.saturating_sub(8), own) && way == own_way
    } else {
        link == own && u32::from(way) == changed_at(bit.saturating_sub(16), own_way)
    }
}
