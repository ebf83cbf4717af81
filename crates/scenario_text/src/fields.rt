// What a word of a line may stand for.
ghost use Rattle.std.specs.Prelude.{◌≡◌, ◌<◌, ◌≤◌, Some, None, if◌then◌else◌, IfSome, IfOk, length};
ghost use Rattle.std.specs.List.{position_from};
ghost use Rattle.std.specs.Option.{option_map};
ghost use Rattle.std.specs.Str.{bytes_eq};
ghost use Rattle.scenario_text.specs.Words.{is_name};
ghost use Rattle.scenario_text.specs.Fields.{node_of, sae_of, link_of, way_of, lane_of, name_of, stream_of, size_of, ends_named, image_named, octets_of_hex};
ghost use Rattle.scenario_text.specs.Gives.{Gives};
ghost use Rattle.sae_entitlements.specs.Grants.{IsKnown};

use crate::refusal::LineRefusal;
use crate::words::{is_name, number_in};
use declared_site::Site;
use hex::FromHexError;
use key_uuid::{from_uuid, to_uuid};
use qkd_base::{KeyName, Lane, LinkNo, NameKind, NodeNo, Octets, SaeNo, Text, Way};
use run_types::{Ends, Image};
use std::alloc::Global;
use std::str;
use uuid::Uuid;

/// The place of the first of these names that is this one.
pub fn place_of(names: &[Text], name: &[u8]) -> Option<usize>
    ensures place { result ≡ position_from (λ n. bytes_eq n name.now) 0 names.now }
    ensures within { IfSome result (λ place. place < length names.now) }
{
    for (place, text) in names.iter().enumerate() {
        if text.as_str().as_bytes() == name {
            return Some(place);
        }
    }
    None
}

/// The number of a declared node.
#[tactic(auto, unfolding(crate::specs::Fields::node_of))]
pub fn node(site: &Site, word: &[u8]) -> Option<NodeNo>
    ensures { result ≡ node_of site.now word.now }
{
    let place = place_of(site.nodes.as_slice(), word)?;
    if place < 16 {
        NodeNo::new(place as u8)
    } else {
        None
    }
}

/// The text of a word, if it may be a name of at most `most` characters.
pub fn name_text(most: usize, word: &[u8]) -> Option<&str>
    ensures { option_map (λ t. t.now) result ≡ (if is_name most word.now then Some word.now else None) }
{
    if is_name(most, word) {
        match str::from_utf8(word) {
            Ok(text) => Some(text),
            Err(_) => unreachable!(),
        }
    } else {
        None
    }
}

/// The number of a declared application.
#[tactic(auto, unfolding(crate::specs::Fields::sae_of))]
pub fn sae(site: &Site, word: &[u8]) -> Option<SaeNo>
    ensures number { result ≡ sae_of site.now word.now }
    ensures known { IfSome result (λ sae. IsKnown site.now.entitlements sae) }
{
    match name_text(64, word) {
        Some(id) => site.entitlements.find(id),
        None => None,
    }
}

/// The number of a declared link.
#[tactic(auto, unfolding(crate::specs::Fields::link_of))]
pub fn link(site: &Site, word: &[u8]) -> Option<LinkNo>
    ensures { result ≡ link_of site.now word.now }
{
    let number = number_in(0, 31, word)?;
    let link = LinkNo::new(number as u8)?;
    match site.routes.ends(link) {
        Some(_) => Some(link),
        None => None,
    }
}

/// The way of a lane that the word `up` or `down` means.
pub fn way(word: &[u8]) -> Option<Way>
    ensures { result ≡ way_of word.now }
{
    if word == b"up".as_slice() {
        Some(Way::Up)
    } else if word == b"down".as_slice() {
        Some(Way::Down)
    } else {
        None
    }
}

/// A lane of a declared link.
#[tactic(auto, unfolding(crate::specs::Fields::lane_of))]
pub fn lane(site: &Site, link_word: &[u8], way_word: &[u8]) -> Option<Lane>
    ensures { result ≡ lane_of site.now link_word.now way_word.now }
{
    let link = link(site, link_word)?;
    let way = way(way_word)?;
    Some(Lane { link, way })
}

/// The name of this text. `None` if no name has this text.
#[tactic(auto, unfolding(crate::specs::Fields::name_of))]
pub fn name(word: &[u8]) -> Option<KeyName>
    ensures { result ≡ name_of word.now }
{
    let uuid = match Uuid::try_parse_ascii(word) {
        Ok(uuid) => uuid,
        Err(_) => return None,
    };
    let name = from_uuid(uuid)?;
    let mut buffer = Uuid::encode_buffer();
    let text = to_uuid(name).hyphenated().encode_lower(&mut buffer);
    if word == text.as_bytes() {
        Some(name)
    } else {
        None
    }
}

/// The name of a stream. `None` if the word isn't one.
#[tactic(auto, unfolding(crate::specs::Fields::stream_of))]
pub fn stream(word: &[u8]) -> Option<KeyName>
    ensures { result ≡ stream_of word.now }
{
    let name = name(word)?;
    match name.kind() {
        NameKind::Stream => Some(name),
        NameKind::Key => None,
        NameKind::Note => None,
    }
}

/// The size of a key in bits: 64 to 4,096, in steps of 8.
#[tactic(auto, unfolding(crate::specs::Fields::size_of))]
pub fn size(word: &[u8]) -> Option<u16>
    ensures { result ≡ size_of word.now }
{
    let bits = number_in(64, 4096, word)?;
    if bits % 8 == 0 {
        Some(bits as u16)
    } else {
        None
    }
}

/// The ends of a link that the word `low`, `high` or `both` means.
pub fn ends(word: &[u8]) -> Option<Ends>
    ensures { result ≡ ends_named word.now }
{
    if word == b"low".as_slice() {
        Some(Ends::Low)
    } else if word == b"high".as_slice() {
        Some(Ends::High)
    } else if word == b"both".as_slice() {
        Some(Ends::Both)
    } else {
        None
    }
}

/// What a cut leaves, by the word `lost`, `kept` or `torn`.
pub fn image(word: &[u8]) -> Option<Image>
    ensures { result ≡ image_named word.now }
{
    if word == b"lost".as_slice() {
        Some(Image::Lost)
    } else if word == b"kept".as_slice() {
        Some(Image::Kept)
    } else if word == b"torn".as_slice() {
        Some(Image::Torn)
    } else {
        None
    }
}

/// The octets that pairs of hexadecimal digits of either case write: at least one, and at most `most`.
#[tactic(auto, unfolding(crate::specs::Fields::octets_of_hex))]
pub fn octets(alloc: Global, most: usize, word: &[u8]) -> Result<Octets, LineRefusal>
    ensures { Gives (octets_of_hex most word.now) result }
{
    match hex::decode(alloc, word) {
        Ok(octets) => {
            if 1 <= octets.len() && octets.len() <= most {
                Ok(Octets::from_vec(octets))
            } else {
                Err(LineRefusal::Refused)
            }
        }
        Err(FromHexError::OutOfMemory) => Err(LineRefusal::Memory),
        Err(_) => Err(LineRefusal::Refused),
    }
}
