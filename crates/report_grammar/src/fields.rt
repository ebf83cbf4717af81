// Values that are read from words of a line. Several words may be read as one value: a number may have leading zeros, and
// hexadecimal digits may be upper-case. Reading a line writes what was read again and compares it with the line.
ghost use Rattle.std.specs.Prelude.{◌≡◌, ◌<◌, length, IfSome};
ghost use Rattle.std.specs.List.{position_from};
ghost use Rattle.std.specs.Str.{bytes_eq};
ghost use Rattle.scenario_text.specs.Fields.{way_of, name_of};
ghost use Rattle.report_grammar.specs.Fields.{long_of, short_of, byte_of, tag_of, node_of, link_of, lane_of, end_of, up_of, kind_of, state_of, cause_of, octets_of, bytes_of};
ghost use Rattle.report_grammar.specs.Gives.{Gives};

use crate::LineRefusal;
use hex::FromHexError;
use key_uuid::{from_uuid, to_uuid};
use net_model::Held;
use qkd_base::{KeyName, Lane, LinkNo, NodeNo, Octets, Text, Texts, Way};
use run_types::{End, PayloadKind, UnsentCause};
use scenario_text::words::number_in;
use std::alloc::Global;
use uuid::Uuid;

/// A decimal number below 2^64.
#[tactic(auto, unfolding(crate::specs::Fields::long_of))]
pub fn long(word: &[u8]) -> Option<u64>
    ensures { result ≡ long_of word.now }
{
    let mut value = 0u64;
    for b in word {
        if *b < 48 || 57 < *b {
            return None;
        }
        value = value.checked_mul(10)?.checked_add(u64::from(*b - 48))?;
    }
    Some(value)
}

/// A decimal number below 2^16.
#[tactic(auto, unfolding(crate::specs::Fields::short_of))]
pub fn short(word: &[u8]) -> Option<u16>
    ensures { result ≡ short_of word.now }
{
    let number = number_in(0, 65535, word)?;
    Some(number as u16)
}

/// A decimal number below 2^8.
#[tactic(auto, unfolding(crate::specs::Fields::byte_of))]
pub fn byte(word: &[u8]) -> Option<u8>
    ensures { result ≡ byte_of word.now }
{
    let number = number_in(0, 255, word)?;
    Some(number as u8)
}

/// A tag in 16 hexadecimal digits.
#[tactic(auto, unfolding(crate::specs::Fields::tag_of))]
pub fn tag(word: &[u8]) -> Option<u64>
    ensures { result ≡ tag_of word.now }
{
    let mut octets = [0u8; 8];
    match hex::decode_to_slice(word, &mut octets) {
        Ok(()) => Some(u64::from_be_bytes(octets)),
        Err(_) => None,
    }
}

// The place of a name among names.
fn place_of(names: &[Text], name: &[u8]) -> Option<usize>
    ensures { result ≡ position_from (λ n. bytes_eq n name.now) 0 names.now }
{
    for (place, text) in names.iter().enumerate() {
        if text.as_str().as_bytes() == name {
            return Some(place);
        }
    }
    None
}

/// The number of a declared node, from its name.
#[tactic(auto, unfolding(crate::specs::Fields::node_of))]
pub fn node(nodes: &Texts, word: &[u8]) -> Option<NodeNo>
    ensures { result ≡ node_of nodes.now word.now }
{
    let place = place_of(nodes.as_slice(), word)?;
    if place < 16 {
        NodeNo::new(place as u8)
    } else {
        None
    }
}

/// The name of a key, from its only spelling: a hyphenated UUID in lower case.
#[tactic(auto, unfolding(scenario_text::specs::Fields::name_of))]
pub fn name(word: &[u8]) -> Option<KeyName>
    ensures { result ≡ name_of word.now }
{
    let uuid = match Uuid::try_parse_ascii(word) {
        Ok(uuid) => uuid,
        Err(_) => return None,
    };
    let name = from_uuid(uuid)?;
    let mut buffer = Uuid::encode_buffer();
    let text = to_uuid(name).hyphenated().encode_lower(&mut buffer);
    if word == text.as_bytes() {
        Some(name)
    } else {
        None
    }
}

/// The number of a link, below 32.
#[tactic(auto, unfolding(crate::specs::Fields::link_of))]
pub fn link(word: &[u8]) -> Option<LinkNo>
    ensures { result ≡ link_of word.now }
{
    let number = number_in(0, 31, word)?;
    LinkNo::new(number as u8)
}

/// A way of a link: `up` or `down`.
pub fn way(word: &[u8]) -> Option<Way>
    ensures { result ≡ way_of word.now }
{
    if word == b"up".as_slice() {
        Some(Way::Up)
    } else if word == b"down".as_slice() {
        Some(Way::Down)
    } else {
        None
    }
}

/// A lane, from its two words: the link's number and the way.
#[tactic(auto, unfolding(crate::specs::Fields::lane_of))]
pub fn lane(link_word: &[u8], way_word: &[u8]) -> Option<Lane>
    ensures { result ≡ lane_of link_word.now way_word.now }
{
    let link = link(link_word)?;
    let way = way(way_word)?;
    Some(Lane { link, way })
}

/// An end of a link: `low` or `high`.
pub fn end(word: &[u8]) -> Option<End>
    ensures { result ≡ end_of word.now }
{
    if word == b"low".as_slice() {
        Some(End::Low)
    } else if word == b"high".as_slice() {
        Some(End::High)
    } else {
        None
    }
}

/// Whether a link is up: `up` or `down`.
pub fn up(word: &[u8]) -> Option<bool>
    ensures { result ≡ up_of word.now }
{
    if word == b"up".as_slice() {
        Some(true)
    } else if word == b"down".as_slice() {
        Some(false)
    } else {
        None
    }
}

/// The kind of a payload.
pub fn kind(word: &[u8]) -> Option<PayloadKind>
    ensures { result ≡ kind_of word.now }
{
    if word == b"key".as_slice() {
        Some(PayloadKind::Key)
    } else if word == b"stored".as_slice() {
        Some(PayloadKind::Stored)
    } else if word == b"ack".as_slice() {
        Some(PayloadKind::Ack)
    } else if word == b"open".as_slice() {
        Some(PayloadKind::Open)
    } else if word == b"joined".as_slice() {
        Some(PayloadKind::Joined)
    } else if word == b"chunk".as_slice() {
        Some(PayloadKind::Chunk)
    } else if word == b"part".as_slice() {
        Some(PayloadKind::Part)
    } else {
        None
    }
}

/// A key's state at a node.
pub fn state(word: &[u8]) -> Option<Held>
    ensures { result ≡ state_of word.now }
{
    if word == b"absent".as_slice() {
        Some(Held::Absent)
    } else if word == b"given".as_slice() {
        Some(Held::Given)
    } else if word == b"ready".as_slice() {
        Some(Held::Ready)
    } else if word == b"made".as_slice() {
        Some(Held::Made)
    } else if word == b"kept".as_slice() {
        Some(Held::Kept)
    } else if word == b"relayed".as_slice() {
        Some(Held::Relayed)
    } else {
        None
    }
}

/// The reason why a wire took no frame.
pub fn cause(word: &[u8]) -> Option<UnsentCause>
    ensures { result ≡ cause_of word.now }
{
    if word == b"wire-fault".as_slice() {
        Some(UnsentCause::WireFault)
    } else if word == b"memory".as_slice() {
        Some(UnsentCause::Memory)
    } else {
        None
    }
}

/// Octets in pairs of hexadecimal digits. Errors: the word has other octets or an odd length, or memory runs out.
#[tactic(auto, unfolding(crate::specs::Fields::octets_of))]
pub fn octets(alloc: Global, word: &[u8]) -> Result<Octets, LineRefusal>
    ensures { Gives (octets_of word.now) result }
{
    match hex::decode(alloc, word) {
        Ok(octets) => Ok(Octets::from_vec(octets)),
        Err(FromHexError::OutOfMemory) => Err(LineRefusal::Memory),
        Err(_) => Err(LineRefusal::NotALine),
    }
}

/// The octets of a key that is shown, or the hyphen that stands for none. Errors as for `octets`.
#[tactic(auto, unfolding(crate::specs::Fields::bytes_of))]
pub fn bytes(alloc: Global, word: &[u8]) -> Result<Octets, LineRefusal>
    ensures { Gives (bytes_of word.now) result }
{
    if word == b"-".as_slice() {
        Ok(Octets::new(alloc))
    } else {
        octets(alloc, word)
    }
}
