// The payloads of frames.
ghost use Rattle.std.specs.Prelude.{◌≡◌, ◌≤◌, ◌↔◌, IsTrue, length};
ghost use Rattle.net_model.specs.Facts.{fact_len, payload_len, IsSize, IsWellFormed, IsWellFormedFact};

use crate::Fact;
use qkd_base::{KeyName, Memory, NameKind, Octets, Replica};

/// What one frame tells the other end of its link.
#[derive(Debug, Drop)]
pub enum Payload {
    /// A fact, sent to the next node of its route.
    Data(Fact),
    /// The acknowledgement of the fact of this name, sent to the node from which it came.
    Ack(KeyName),
}

impl Replica for Payload {
    fn copy(&self) -> Result<Self, Memory> {
        match self {
            Payload::Data(fact) => Ok(Payload::Data(fact.copy()?)),
            Payload::Ack(name) => Ok(Payload::Ack(*name)),
        }
    }
}

// Whether the bytes of a key, a chunk or a part are 8 to 512 octets.
fn has_size(bytes: &Octets) -> bool
    ensures { IsTrue result ↔ IsSize (length bytes.now) }
{
    let size = bytes.len();
    8 <= size && size <= 512
}

// Whether the names of a fact have the right kinds, and its bytes the right sizes.
fn is_formed(fact: &Fact) -> bool
    ensures { IsTrue result ↔ IsWellFormedFact fact.now }
{
    match fact {
        Fact::Key { name, bytes, .. } => name.kind() == NameKind::Key && has_size(bytes),
        Fact::Chunk {
            name,
            stream,
            bytes,
            ..
        } => {
            name.kind() == NameKind::Key && stream.kind() == NameKind::Stream && has_size(bytes)
        }
        Fact::Stored { note, about, .. } => {
            note.kind() == NameKind::Note && about.kind() == NameKind::Key
        }
        Fact::Open { stream, length, .. } => {
            stream.kind() == NameKind::Stream && 8 <= *length && *length <= 512
        }
        Fact::Joined { note, about, .. } => {
            note.kind() == NameKind::Note && about.kind() == NameKind::Stream
        }
        Fact::Part {
            name,
            key,
            bytes,
            ..
        } => name.kind() == NameKind::Key && key.kind() == NameKind::Key && has_size(bytes),
    }
}

/// Whether a payload is well formed: its names have the right kinds, and its bytes and chunk lengths the right sizes.
/// No other payload can be encoded.
pub fn well_formed(payload: &Payload) -> bool
    ensures { IsTrue result ↔ IsWellFormed payload.now }
{
    match payload {
        Payload::Data(fact) => is_formed(fact),
        Payload::Ack(_) => true,
    }
}

/// The number of octets of an encoded fact, at most 561.
pub fn fact_size(fact: &Fact) -> u16
    requires { IsWellFormedFact fact.now }
    ensures length { result ≡ fact_len fact.now }
    ensures range { (17 ≤ result) × (result ≤ 561) }
{
    match fact {
        Fact::Key { route, bytes, .. } => 24 + route.as_slice().len() as u16 + bytes.len() as u16,
        Fact::Chunk { route, bytes, .. } => 40 + route.as_slice().len() as u16 + bytes.len() as u16,
        Fact::Stored { route, .. } => 34 + route.as_slice().len() as u16,
        Fact::Open { route, .. } => 24 + route.as_slice().len() as u16,
        Fact::Joined { route, .. } => 34 + route.as_slice().len() as u16,
        Fact::Part { route, bytes, .. } => 40 + route.as_slice().len() as u16 + bytes.len() as u16,
    }
}

/// The number of octets of an encoded payload, at most 561.
pub fn spelled_len(payload: &Payload) -> u16
    requires { IsWellFormed payload.now }
    ensures length { result ≡ payload_len payload.now }
    ensures range { (17 ≤ result) × (result ≤ 561) }
{
    match payload {
        Payload::Data(fact) => fact_size(fact),
        Payload::Ack(_) => 17,
    }
}
