// Reading requests from a source.
ghost use Rattle.std.specs.Prelude.{◌≡◌, ◌≤◌, ◌<◌, max, length, take, drop, true, false, IfOk, IfErr, OnOk, OnErr};
ghost use Rattle.std.specs.Io.KnownBytes.{IsAtEnd, prepend_known};
ghost use Rattle.http_front.specs.Front.{HasSome, IsRefused, IsScarce, closes};
ghost use Rattle.http_front.specs.Reading.{Came, IsEnough, IsEnd, IsShort, IsDisturbed, IsHeadOf, no_more, FaultsAre, IsRead, Reads, OneAnswer};

use crate::framing::{closes, framing};
use crate::head::{HEAD_LIMIT, Head, head_of};
use crate::{FrontRefusal, HttpRequest};
use edge_io::{Failed, Source};
use qkd_base::{Memory, Octets};
use std::alloc::Global;
use std::mem;

// How many octets are read at most before a head is complete.
const FRONT: usize = 8193;

// The most octets of one read.
const PIECE: usize = 2048;

/// Reads one request, first from the kept octets and then from the source. Octets of the next request are kept. After an `Err`
/// all octets read so far are kept. If the kept octets suffice, nothing is read from the source.
pub fn read_request<S: Source>(
    alloc: Global,
    source: &mut S,
    kept: &mut Octets,
) -> Result<HttpRequest, FrontRefusal>
    ensures read { IsRead (S.left source.old) (S.left source.new) kept.old kept.new result }
    ensures meaning { Reads (prepend_known kept.old (S.left source.old)) (prepend_known kept.new (S.left source.new)) result }
    ensures one { OneAnswer (prepend_known kept.old (S.left source.old)) result }
    ensures memory { IfErr result (λ e. IsScarce e kept.new) }
    ensures faults { FaultsAre result (S.faults source.old) (S.faults source.new) }
    ensures still { IsEnough kept.old → source.new ≡ source.old }
{
    let mut octets = mem::replace(kept, Octets::new(alloc)).into_vec();
    let result = read_from(alloc, source, &mut octets);
    *kept = Octets::from_vec(octets);
    result
}

// `read_request`, with the kept octets in a `Vec`.
fn read_from<S: Source>(
    alloc: Global,
    source: &mut S,
    octets: &mut Vec<u8>,
) -> Result<HttpRequest, FrontRefusal>
    ensures read { IsRead (S.left source.old) (S.left source.new) octets.old.items octets.new.items result }
    ensures memory { IfErr result (λ e. IsScarce e octets.new.items) }
    ensures faults { FaultsAre result (S.faults source.old) (S.faults source.new) }
    ensures still { IsEnough octets.old.items → source.new ≡ source.old }
{
    let head = read_head(alloc, source, octets)?;
    let length = framing(head.method.as_slice(), head.fields.as_slice())?;
    read_to(source, octets, head.len + length)?;
    match Octets::from_slice(alloc, &octets[head.len..head.len + length]) {
        Ok(body) => match drop_front(alloc, octets, head.len + length) {
            Ok(()) => Ok(request_of(head, body)),
            Err(Memory) => Err(FrontRefusal::Memory),
        },
        Err(Memory) => Err(FrontRefusal::Memory),
    }
}

// Reads until a head is complete.
fn read_head<S: Source>(
    alloc: Global,
    source: &mut S,
    octets: &mut Vec<u8>,
) -> Result<Head, FrontRefusal>
    ensures came { Came (S.left source.old) (S.left source.new) octets.old.items octets.new.items }
    ensures limit { length octets.new.items ≤ max (length octets.old.items) 8193 }
    ensures head { IfOk result (λ head. IsHeadOf octets.new.items head) }
    ensures refused { IfErr result (λ e. IsRefused octets.new.items e) }
    ensures end { IfErr result (λ e. IsEnd e (S.left source.new)) }
    ensures memory { IfErr result (λ e. IsScarce e octets.new.items) }
    ensures faults { FaultsAre result (S.faults source.old) (S.faults source.new) }
    ensures still { HasSome octets.old.items → (octets.new.items ≡ octets.old.items) × (source.new ≡ source.old) }
{
    'look: loop {
        match head_of(alloc, front(octets))? {
            Some(head) => return Ok(head),
            None => {}
        }
        if octets.len() > HEAD_LIMIT {
            return Err(FrontRefusal::HeadTooLong);
        }
        let came = fetch(source, octets, FRONT)?;
        if !came {
            return Err(ended(octets));
        }
    }
}

// The first 8,193 octets: a head ends among them or is too long.
fn front(octets: &[u8]) -> &[u8]
    ensures front { result.now ≡ take 8193 octets.now }
    ensures short { length result.now ≤ 8193 }
{
    &octets[..octets.len().min(FRONT)]
}

// Why there is no head when the input has ended.
fn ended(octets: &[u8]) -> FrontRefusal
    ensures { result ≡ no_more octets.now }
{
    if octets.is_empty() {
        FrontRefusal::NoRequest
    } else {
        FrontRefusal::EndOfInput
    }
}

// Reads until there are `count` octets.
fn read_to<S: Source>(
    source: &mut S,
    octets: &mut Vec<u8>,
    count: usize,
) -> Result<(), FrontRefusal>
    ensures came { Came (S.left source.old) (S.left source.new) octets.old.items octets.new.items }
    ensures limit { length octets.new.items ≤ max (length octets.old.items) count }
    ensures whole { OnOk result (count ≤ length octets.new.items) }
    ensures short { IfErr result (λ e. IsShort e (length octets.new.items) count (S.left source.new)) }
    ensures faults { FaultsAre result (S.faults source.old) (S.faults source.new) }
    ensures still { count ≤ length octets.old.items → (octets.new.items ≡ octets.old.items) × (source.new ≡ source.old) }
{
    while octets.len() < count {
        let came = fetch(source, octets, count)?;
        if !came {
            return Err(FrontRefusal::EndOfInput);
        }
    }
    Ok(())
}

// Reads once, up to `limit` octets in all, and returns whether octets came.
fn fetch<S: Source>(
    source: &mut S,
    octets: &mut Vec<u8>,
    limit: usize,
) -> Result<bool, FrontRefusal>
    requires { length octets.old.items < limit }
    ensures came { Came (S.left source.old) (S.left source.new) octets.old.items octets.new.items }
    ensures limit { length octets.new.items ≤ limit }
    ensures some { result ≡ Ok true → length octets.old.items < length octets.new.items }
    ensures end { result ≡ Ok false → (octets.new.items ≡ octets.old.items) × IsAtEnd (S.left source.new) }
    ensures err { IfErr result IsDisturbed }
    ensures kept { OnErr result (octets.new.items ≡ octets.old.items) }
    ensures faults { FaultsAre result (S.faults source.old) (S.faults source.new) }
{
    let mut piece = [0u8; PIECE];
    let most = (limit - octets.len()).min(PIECE);
    octets.reserve(most)?;
    let count = match source.read(&mut piece[..most]) {
        Ok(count) => count,
        Err(Failed) => return Err(FrontRefusal::ReadFault),
    };
    octets.extend_from_slice(&piece[..count])?;
    Ok(count > 0)
}

// Removes the first `count` octets. If no octet is left, the memory stays allocated.
fn drop_front(alloc: Global, octets: &mut Vec<u8>, count: usize) -> Result<(), Memory>
    requires { count ≤ length octets.old.items }
    ensures ok { OnOk result (octets.new.items ≡ drop count octets.old.items) }
    ensures err { OnErr result (octets.new ≡ octets.old) }
{
    if octets.len() == count {
        octets.clear();
    } else {
        *octets = Vec::from_slice(alloc, &octets[count..])?;
    }
    Ok(())
}

// Makes the request from its head and body.
fn request_of(head: Head, body: Octets) -> HttpRequest
    ensures { result ≡ record {
      method = head.method;
      target = head.target;
      fields = head.fields;
      body = body;
      close = closes head.minor head.fields;
    } }
{
    let Head {
        method,
        target,
        minor,
        fields,
        len: _,
    } = head;
    let close = closes(minor, fields.as_slice());
    HttpRequest {
        method,
        target,
        fields,
        body,
        close,
    }
}
