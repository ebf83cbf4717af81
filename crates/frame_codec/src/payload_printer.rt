// How payloads are written as octets.
ghost use Rattle.std.specs.Prelude.{◌≡◌, ◌+◌, ◌≤◌, ◌<◌, [], ◌∷◌, ◌++◌, length, take, drop};
ghost use Rattle.qkd_base.specs.Name.{IsName, octets_of};
ghost use Rattle.net_model.specs.Facts.{fact_len, payload_len, IsWellFormed, IsWellFormedFact};
ghost use Rattle.frame_codec.specs.Payload.{IsPayload, IsFact, IsSae, AreRouteNodes, AreOctets, payload_octets, fact_octets, fields, short, long, spelled_route};
ghost use Rattle.frame_codec.specs.Writing.{Puts};

use net_model::{Fact, Payload, spelled_len};
use qkd_base::{FrameOctets, KeyName, Octets, Route, SaeNo};

/// Writes octets at a place, and returns the place behind them.
pub fn put(into: &mut [u8], at: usize, octets: &[u8]) -> usize
    requires { at + length octets.now ≤ length into.old }
    ensures octets { Puts into.old into.new at result octets.now }
    ensures are_octets { AreOctets octets.now }
{
    let end = at + octets.len();
    into[at..end].copy_from_slice(octets);
    end
}

/// Writes the 16 octets of a name, and returns the place behind them.
pub fn put_name(into: &mut [u8], at: usize, name: KeyName) -> usize
    requires { at + 16 ≤ length into.old }
    ensures octets { Puts into.old into.new at result (octets_of name) }
    ensures named { IsName name }
{
    put(into, at, &name.to_octets())
}

/// Writes a number of two octets, big-endian, and returns the place behind it.
pub fn put_short(into: &mut [u8], at: usize, number: u16) -> usize
    requires { at + 2 ≤ length into.old }
    ensures { Puts into.old into.new at result (short number) }
{
    put(into, at, &number.to_be_bytes())
}

/// Writes a number of four octets, big-endian, and returns the place behind it.
pub fn put_long(into: &mut [u8], at: usize, number: u32) -> usize
    requires { at + 4 ≤ length into.old }
    ensures { Puts into.old into.new at result (long number) }
{
    put(into, at, &number.to_be_bytes())
}

/// Writes the two octets of an application, and returns the place behind them.
pub fn put_sae(into: &mut [u8], at: usize, sae: SaeNo) -> usize
    requires { at + 2 ≤ length into.old }
    ensures octets { Puts into.old into.new at result (short sae) }
    ensures below { IsSae sae }
{
    put_short(into, at, sae.get())
}

// Writes the number of a route's nodes, and an octet for each.
fn put_route(into: &mut [u8], at: usize, route: &Route) -> usize
    requires { at + 1 + length route.now ≤ length into.old }
    ensures octets { Puts into.old into.new at result (spelled_route route.now) }
    ensures is_way { AreRouteNodes route.now }
{
    let nodes = route.as_slice();
    let begin = put(into, at, &[nodes.len() as u8]);
    for (i, node) in nodes.iter().enumerate() {
        into[begin + i] = node.get();
    }
    begin + nodes.len()
}

// Writes the number of the bytes, then a route, then the bytes.
fn put_secret(into: &mut [u8], at: usize, route: &Route, bytes: &Octets) -> usize
    requires size { length bytes.now ≤ 512 }
    requires fits { at + 3 + length route.now + length bytes.now ≤ length into.old }
    ensures octets { Puts into.old into.new at result (fields (short (length bytes.now) ∷ spelled_route route.now ∷ bytes.now ∷ [])) }
    ensures is_way { AreRouteNodes route.now }
    ensures are_octets { AreOctets bytes.now }
{
    let at = put_short(into, at, bytes.len() as u16);
    let at = put_route(into, at, route);
    put(into, at, bytes.as_slice())
}

// Writes a key, without the octet of its kind.
fn put_key(
    into: &mut [u8],
    at: usize,
    name: KeyName,
    ends: (SaeNo, SaeNo),
    route: &Route,
    bytes: &Octets,
) -> usize
    requires size { length bytes.now ≤ 512 }
    requires fits { at + 23 + length route.now + length bytes.now ≤ length into.old }
    ensures octets { Puts into.old into.new at result (fields (octets_of name ∷ short ends.0 ∷ short ends.1 ∷ short (length bytes.now) ∷ spelled_route route.now ∷ bytes.now ∷ [])) }
    ensures named { IsName name }
    ensures below { IsSae ends.0 × IsSae ends.1 }
    ensures is_way { AreRouteNodes route.now }
    ensures are_octets { AreOctets bytes.now }
{
    let at = put_name(into, at, name);
    let at = put_sae(into, at, ends.0);
    let at = put_sae(into, at, ends.1);
    put_secret(into, at, route, bytes)
}

// Writes a note about a name, without the octet of its kind.
fn put_note(into: &mut [u8], at: usize, note: KeyName, about: KeyName, route: &Route) -> usize
    requires { at + 33 + length route.now ≤ length into.old }
    ensures octets { Puts into.old into.new at result (fields (octets_of note ∷ octets_of about ∷ spelled_route route.now ∷ [])) }
    ensures named { IsName note × IsName about }
    ensures is_way { AreRouteNodes route.now }
{
    let at = put_name(into, at, note);
    let at = put_name(into, at, about);
    put_route(into, at, route)
}

// Writes the beginning of a stream, without the octet of its kind.
fn put_open(
    into: &mut [u8],
    at: usize,
    stream: KeyName,
    ends: (SaeNo, SaeNo),
    size: u16,
    route: &Route,
) -> usize
    requires { at + 23 + length route.now ≤ length into.old }
    ensures octets { Puts into.old into.new at result (fields (octets_of stream ∷ short ends.0 ∷ short ends.1 ∷ short size ∷ spelled_route route.now ∷ [])) }
    ensures named { IsName stream }
    ensures below { IsSae ends.0 × IsSae ends.1 }
    ensures is_way { AreRouteNodes route.now }
{
    let at = put_name(into, at, stream);
    let at = put_sae(into, at, ends.0);
    let at = put_sae(into, at, ends.1);
    let at = put_short(into, at, size);
    put_route(into, at, route)
}

// Writes a chunk, without the octet of its kind.
fn put_chunk(
    into: &mut [u8],
    at: usize,
    names: (KeyName, KeyName),
    index: u32,
    route: &Route,
    bytes: &Octets,
) -> usize
    requires size { length bytes.now ≤ 512 }
    requires fits { at + 39 + length route.now + length bytes.now ≤ length into.old }
    ensures octets { Puts into.old into.new at result (fields (octets_of names.0 ∷ octets_of names.1 ∷ long index ∷ short (length bytes.now) ∷ spelled_route route.now ∷ bytes.now ∷ [])) }
    ensures named { IsName names.0 × IsName names.1 }
    ensures is_way { AreRouteNodes route.now }
    ensures are_octets { AreOctets bytes.now }
{
    let at = put_name(into, at, names.0);
    let at = put_name(into, at, names.1);
    let at = put_long(into, at, index);
    put_secret(into, at, route, bytes)
}

/// Writes the payload of a fact, and returns the place behind it.
pub fn put_fact(into: &mut [u8], at: usize, fact: &Fact) -> usize
    requires formed { IsWellFormedFact fact.now }
    requires fits { at + fact_len fact.now ≤ length into.old }
    ensures octets { Puts into.old into.new at result (fact_octets fact.now) }
    ensures grammar { IsFact fact.now }
{
    match fact {
        Fact::Key {
            name,
            master,
            slave,
            route,
            bytes,
        } => {
            let at = put(into, at, &[1]);
            put_key(into, at, *name, (*master, *slave), route, bytes)
        }
        Fact::Stored { note, about, route } => {
            let at = put(into, at, &[2]);
            put_note(into, at, *note, *about, route)
        }
        Fact::Open {
            stream,
            source,
            peer,
            length,
            route,
        } => {
            let at = put(into, at, &[4]);
            put_open(into, at, *stream, (*source, *peer), *length, route)
        }
        Fact::Joined { note, about, route } => {
            let at = put(into, at, &[5]);
            put_note(into, at, *note, *about, route)
        }
        Fact::Chunk {
            name,
            stream,
            index,
            route,
            bytes,
        } => {
            let at = put(into, at, &[6]);
            put_chunk(into, at, (*name, *stream), *index, route, bytes)
        }
        Fact::Part {
            name,
            key,
            master,
            slave,
            route,
            bytes,
        } => {
            let at = put(into, at, &[7]);
            let at = put_name(into, at, *name);
            put_key(into, at, *key, (*master, *slave), route, bytes)
        }
    }
}

// Writes a payload, and returns the place behind it.
fn put_payload(into: &mut [u8], at: usize, payload: &Payload) -> usize
    requires formed { IsWellFormed payload.now }
    requires fits { at + payload_len payload.now ≤ length into.old }
    ensures octets { Puts into.old into.new at result (payload_octets payload.now) }
    ensures grammar { IsPayload payload.now }
{
    match payload {
        Payload::Data(fact) => put_fact(into, at, fact),
        Payload::Ack(name) => {
            let at = put(into, at, &[3]);
            put_name(into, at, *name)
        }
    }
}

/// Writes the spelling of a payload at a place, and returns its length: 17 to 561 octets. The octets before and behind it
/// stay.
pub fn spell(payload: &Payload, into: &mut FrameOctets, at: usize) -> usize
    requires formed { IsWellFormed payload.now }
    requires fits { at + payload_len payload.now ≤ 600 }
    ensures len { result ≡ payload_len payload.now }
    ensures whole { length (payload_octets payload.now) ≡ payload_len payload.now }
    ensures octets { take (at + result) into.new.octets ≡ take at into.old.octets ++ payload_octets payload.now }
    ensures rest { drop (at + result) into.new.octets ≡ drop (at + result) into.old.octets }
    ensures grammar { IsPayload payload.now }
{
    let size = usize::from(spelled_len(payload));
    put_payload(&mut into.octets[..at + size], at, payload);
    size
}
