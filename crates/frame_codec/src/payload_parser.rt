// How payloads are read from octets.
ghost use Rattle.std.specs.Prelude.{◌≡◌, ◌+◌, ◌≤◌, length, drop, IfOk, Ok};
ghost use Rattle.net_model.specs.declared.payload.Payload.{Payload as PayloadValue};
ghost use Rattle.frame_codec.specs.Payload.{IsPayload, payload_octets};
ghost use Rattle.frame_codec.specs.Reading.{Gives, Reads, key_of, note_of, open_of, chunk_of, part_of, ack_of, payload_left, payload_of};

use crate::PayloadRefusal;
use crate::fault::Fault;
use crate::fields::{index_of, last_of, name_of, name_of_kind, route_of, sae_of, size_of};
use net_model::{Fact, Payload};
use qkd_base::{KeyName, NameKind, Octets, Route};
use std::alloc::Global;

// The octets behind the first `size` ones.
fn after(octets: &[u8], size: usize) -> &[u8]
    requires { size ≤ length octets.now }
    ensures { result.now ≡ drop size octets.now }
{
    &octets[size..]
}

// A key, behind the octet of its kind.
#[tactic(auto, unfolding(crate::specs::Reading::key_of))]
fn key_of(alloc: Global, octets: &[u8]) -> Result<Fact, Fault>
    ensures { Gives (λ x. x) result (key_of octets.now) }
{
    let name = name_of_kind(octets, NameKind::Key)?;
    let octets = after(octets, 16);
    let master = sae_of(octets)?;
    let octets = after(octets, 2);
    let slave = sae_of(octets)?;
    let octets = after(octets, 2);
    let size = size_of(octets)?;
    let octets = after(octets, 2);
    let route = route_of(octets)?;
    let octets = after(octets, 1 + route.as_slice().len());
    last_of(octets, size)?;
    let bytes = Octets::from_slice(alloc, octets)?;
    Ok(Fact::Key {
        name,
        master,
        slave,
        route,
        bytes,
    })
}

// A note about a name of the given kind, behind the octet of the note's kind.
#[tactic(auto, unfolding(crate::specs::Reading::note_of))]
fn note_of(octets: &[u8], kind: NameKind) -> Result<(KeyName, KeyName, Route), Fault>
    ensures { Gives (λ x. x) result (note_of kind octets.now) }
{
    let note = name_of_kind(octets, NameKind::Note)?;
    let octets = after(octets, 16);
    let about = name_of_kind(octets, kind)?;
    let octets = after(octets, 16);
    let route = route_of(octets)?;
    let octets = after(octets, 1 + route.as_slice().len());
    last_of(octets, 0)?;
    Ok((note, about, route))
}

// The beginning of a stream, behind the octet of its kind.
#[tactic(auto, unfolding(crate::specs::Reading::open_of))]
fn open_of(octets: &[u8]) -> Result<Fact, Fault>
    ensures { Gives (λ x. x) result (open_of octets.now) }
{
    let stream = name_of_kind(octets, NameKind::Stream)?;
    let octets = after(octets, 16);
    let source = sae_of(octets)?;
    let octets = after(octets, 2);
    let peer = sae_of(octets)?;
    let octets = after(octets, 2);
    let length = size_of(octets)?;
    let octets = after(octets, 2);
    let route = route_of(octets)?;
    let octets = after(octets, 1 + route.as_slice().len());
    last_of(octets, 0)?;
    Ok(Fact::Open {
        stream,
        source,
        peer,
        length,
        route,
    })
}

// A chunk, behind the octet of its kind.
#[tactic(auto, unfolding(crate::specs::Reading::chunk_of))]
fn chunk_of(alloc: Global, octets: &[u8]) -> Result<Fact, Fault>
    ensures { Gives (λ x. x) result (chunk_of octets.now) }
{
    let name = name_of_kind(octets, NameKind::Key)?;
    let octets = after(octets, 16);
    let stream = name_of_kind(octets, NameKind::Stream)?;
    let octets = after(octets, 16);
    let index = index_of(octets)?;
    let octets = after(octets, 4);
    let size = size_of(octets)?;
    let octets = after(octets, 2);
    let route = route_of(octets)?;
    let octets = after(octets, 1 + route.as_slice().len());
    last_of(octets, size)?;
    let bytes = Octets::from_slice(alloc, octets)?;
    Ok(Fact::Chunk {
        name,
        stream,
        index,
        route,
        bytes,
    })
}

// A part of a group key, behind the octet of its kind.
#[tactic(auto, unfolding(crate::specs::Reading::part_of))]
fn part_of(alloc: Global, octets: &[u8]) -> Result<Fact, Fault>
    ensures { Gives (λ x. x) result (part_of octets.now) }
{
    let name = name_of_kind(octets, NameKind::Key)?;
    let octets = after(octets, 16);
    let key = name_of_kind(octets, NameKind::Key)?;
    let octets = after(octets, 16);
    let master = sae_of(octets)?;
    let octets = after(octets, 2);
    let slave = sae_of(octets)?;
    let octets = after(octets, 2);
    let size = size_of(octets)?;
    let octets = after(octets, 2);
    let route = route_of(octets)?;
    let octets = after(octets, 1 + route.as_slice().len());
    last_of(octets, size)?;
    let bytes = Octets::from_slice(alloc, octets)?;
    Ok(Fact::Part {
        name,
        key,
        master,
        slave,
        route,
        bytes,
    })
}

// An acknowledgement, behind the octet of its kind.
#[tactic(auto, unfolding(crate::specs::Reading::ack_of))]
fn ack_of(octets: &[u8]) -> Result<KeyName, Fault>
    ensures { Gives (λ x. x) result (ack_of octets.now) }
{
    let name = name_of(octets)?;
    let octets = after(octets, 16);
    last_of(octets, 0)?;
    Ok(name)
}

// A payload, which begins with the octet of its kind.
#[tactic(auto, unfolding(crate::specs::Reading::payload_left))]
fn payload_of_kind(alloc: Global, octets: &[u8]) -> Result<Payload, Fault>
    ensures { Gives (λ x. x) result (payload_left octets.now) }
{
    match octets {
        [] => Err(Fault::Left(0)),
        [1, rest @ ..] => Ok(Payload::Data(key_of(alloc, rest)?)),
        [2, rest @ ..] => {
            let (note, about, route) = note_of(rest, NameKind::Key)?;
            Ok(Payload::Data(Fact::Stored { note, about, route }))
        }
        [3, rest @ ..] => Ok(Payload::Ack(ack_of(rest)?)),
        [4, rest @ ..] => Ok(Payload::Data(open_of(rest)?)),
        [5, rest @ ..] => {
            let (note, about, route) = note_of(rest, NameKind::Stream)?;
            Ok(Payload::Data(Fact::Joined { note, about, route }))
        }
        [6, rest @ ..] => Ok(Payload::Data(chunk_of(alloc, rest)?)),
        [7, rest @ ..] => Ok(Payload::Data(part_of(alloc, rest)?)),
        [_, ..] => Err(Fault::Left(octets.len())),
    }
}

// A payload, or the place of the field that doesn't fit.
#[tactic(auto, unfolding(crate::specs::Reading::payload_of))]
fn payload_at(alloc: Global, octets: &[u8]) -> Result<Payload, PayloadRefusal>
    ensures { Reads result (payload_of octets.now) }
{
    match payload_of_kind(alloc, octets) {
        Ok(payload) => Ok(payload),
        // No more octets are left than there were.
        Err(Fault::Left(left)) => Err(PayloadRefusal::NotAPayload(
            octets.len().saturating_sub(left),
        )),
        Err(Fault::Memory) => Err(PayloadRefusal::Memory),
    }
}

/// Reads a payload that is spelled by exactly these octets. The first octet is its kind: 1 a key, 2 a Stored note, 3 an
/// acknowledgement, 4 the beginning of a stream, 5 a Joined note, 6 a chunk, 7 a part of a group key.
pub fn read(alloc: Global, octets: &[u8]) -> Result<Payload, PayloadRefusal>
    // A payload that is read is in the grammar, and the octets are its spelling.
    ensures found { IfOk result (λ payload. IsPayload payload × (octets.now ≡ payload_octets payload)) }
    // If the octets are the spelling of a payload, that payload is read, unless memory runs out.
    ensures only { (payload : PayloadValue) → IsPayload payload → octets.now ≡ payload_octets payload → Reads result (Ok payload) }
    // The result is that of the definition. Memory can only run out if the octets are a payload.
    ensures exact { Reads result (payload_of octets.now) }
{
    payload_at(alloc, octets)
}
