// The names of keys, streams and notes.
ghost use Rattle.std.specs.Prelude.{◌≡◌, ℕ, ◌≤◌, ◌<◌, ◌^◌, Some, None, IfSome, nat_lt, nat_le, ◌&&◌, if◌then◌else◌};
ghost use Rattle.qkd_base.specs.declared.key_name.NameKind.{NameKind as NameKindValue};
ghost use Rattle.qkd_base.specs.Name.{Name, IsName, octets_of, kind_number, name_at};

use crate::NodeNo;
use std::marker::Model;

/// What a name stands for.
#[derive(Clone, Copy, Debug, PartialEq, Eq, PartialOrd, Ord, Hash)]
pub enum NameKind {
    Key,
    Stream,
    Note,
}

/// The name of a key, a stream or a note. It consists of the node that gave it, its kind, and that node's count, from 1
/// to 2^48 - 1. Its octets are a UUID of version 8 (RFC 9562 section 5.8). Contracts see it as the record of its parts.
#[derive(Clone, Copy, Debug, PartialEq, Eq, Hash)]
pub struct KeyName {
    node: NodeNo,
    kind: NameKind,
    count: u64,
}

impl Model for KeyName {
    ghost use Rattle.std.specs.Prelude.{◌≤◌, ◌<◌, ◌^◌};
    ghost use Rattle.qkd_base.specs.Name.{Name};

    ghost Value = { Name };

    ghost view = { λ a. record { node = a.node; kind = a.kind; count = a.count } };

    ghost invariant = { λ a. (a.node < 16) × (1 ≤ a.count) × (a.count < 2 ^ 48) };

    ghost inverse = { λ n. record { node = n.node; kind = n.kind; count = n.count } };
}

// The octet that stands for a kind.
fn kind_octet(kind: NameKind) -> u8
    ensures { result ≡ kind_number kind }
{
    match kind {
        NameKind::Key => 0,
        NameKind::Stream => 1,
        NameKind::Note => 2,
    }
}

// The kind that an octet stands for.
fn kind_at(octet: u8) -> Option<NameKind>
    ensures is { IfSome result (λ kind. octet ≡ kind_number kind) }
    ensures all { (kind : NameKindValue) → octet ≡ kind_number kind → result ≡ Some kind }
{
    match octet {
        0 => Some(NameKind::Key),
        1 => Some(NameKind::Stream),
        2 => Some(NameKind::Note),
        _ => None,
    }
}

// The count, which the last 6 octets hold.
fn count_at(octets: &[u8; 16]) -> u64
    ensures { (n : Name) → IsName n → octets.now ≡ octets_of n → result ≡ n.count }
{
    let [.., a, b, c, d, e, f] = *octets;
    u64::from_be_bytes([0, 0, a, b, c, d, e, f])
}

// The name that these octets spell. For octets that spell no name, any answer may come.
fn named_by(octets: &[u8; 16]) -> Option<KeyName>
    ensures { (n : Name) → IsName n → octets.now ≡ octets_of n → result ≡ Some n }
{
    let node = NodeNo::new(octets[7])?;
    let kind = kind_at(octets[9])?;
    KeyName::new(node, kind, count_at(octets))
}

// The name that these octets spell, or `None` if they spell none.
fn name_of(octets: &[u8; 16]) -> Option<KeyName>
    ensures is { IfSome result (λ n. IsName n × (octets.now ≡ octets_of n)) }
    ensures all { (n : Name) → IsName n → octets.now ≡ octets_of n → result ≡ Some n }
{
    let name = named_by(octets)?;
    if name.to_octets() == *octets {
        Some(name)
    } else {
        None
    }
}

impl KeyName {
    /// The name of these parts. `None` if the count is 0, or 2^48 or more.
    pub fn new(node: NodeNo, kind: NameKind, count: u64) -> Option<Self>
        ensures { result ≡ (if nat_le 1 count && nat_lt count (2 ^ 48) then Some (record { node = node; kind = kind; count = count }) else None) }
    {
        // For the proof: a node's number is below 16.
        let _holds = node.get();
        if 1 <= count && count < 1 << 48 {
            Some(KeyName { node, kind, count })
        } else {
            None
        }
    }

    /// The node that gave the name.
    pub fn node(self) -> NodeNo
        ensures node { result ≡ self.node }
        ensures named { IsName self }
    {
        self.node
    }

    /// What the name stands for.
    pub fn kind(self) -> NameKind
        ensures kind { result ≡ self.kind }
        ensures named { IsName self }
    {
        self.kind
    }

    /// The count, from 1 to 2^48 - 1.
    pub fn count(self) -> u64
        ensures count { result ≡ self.count }
        ensures named { IsName self }
    {
        self.count
    }

    /// The 16 octets of the name, most significant first (RFC 9562 section 5.8).
    pub fn to_octets(self) -> [u8; 16]
        ensures octets { result ≡ octets_of self }
        ensures named { IsName self }
    {
        let [_, _, a, b, c, d, e, f] = self.count.to_be_bytes();
        let node = self.node.get();
        let kind = kind_octet(self.kind);
        [0, 0, 0, 0, 0, 0, 128, node, 128, kind, a, b, c, d, e, f]
    }

    /// The name that these octets spell. `None` if they don't have the layout of a name.
    pub fn from_octets(octets: &[u8; 16]) -> Option<Self>
        ensures is { IfSome result (λ n. IsName n × (octets.now ≡ octets_of n)) }
        ensures all { (n : Name) → IsName n → octets.now ≡ octets_of n → result ≡ Some n }
        ensures name { result ≡ name_at octets.now }
    {
        name_of(octets)
    }
}
