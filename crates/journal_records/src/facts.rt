// Reading the facts in records.
ghost use Rattle.std.specs.Prelude.{◌≡◌, ◌==◌, IfOk, IfErr, slice_index, replicate};
ghost use Rattle.frame_codec.specs.declared.fault.Fault.TheVariants.{Memory};
ghost use Rattle.journal_records.specs.Answers.{Moves};
ghost use Rattle.journal_records.specs.Layout.{whole_fact, bare_key, bare_chunk, bare_part, bare_fact};

use crate::cursor::Cursor;
use frame_codec::PayloadRefusal;
use frame_codec::fault::Fault;
use net_model::{Fact, Payload};
use qkd_base::{NameKind, Octets};
use std::alloc::Global;

// Whether the octets begin with the kind of an acknowledgement.
fn is_ack(octets: &[u8]) -> bool
    ensures { result ≡ (slice_index octets.now 0 == 3) }
{
    match octets {
        [] => false,
        [kind, ..] => *kind == 3,
    }
}

/// Reads a fact that is spelled as a payload of `size` octets.
#[tactic(auto, unfolding(crate::specs::Layout::whole_fact))]
pub fn whole_fact(alloc: Global, cursor: &mut Cursor<'_>, size: u16) -> Result<Fact, Fault>
    ensures { Moves result cursor.new (whole_fact size cursor.old) }
{
    let size = usize::from(size);
    let left = cursor.len();
    if left < size {
        return Err(Fault::Left(left));
    }
    if is_ack(cursor.left()) {
        return Err(Fault::Left(left));
    }
    match frame_codec::read(alloc, &cursor.left()[..size]) {
        Ok(Payload::Data(fact)) => {
            cursor.skip(size);
            Ok(fact)
        }
        Ok(Payload::Ack(_)) => Err(Fault::Left(left)),
        Err(PayloadRefusal::NotAPayload(place)) => Err(Fault::Left(left.saturating_sub(place))),
        Err(PayloadRefusal::Memory) => Err(Fault::Memory),
    }
}

// Makes `size` zeros.
fn zeros(alloc: Global, size: u16) -> Result<Octets, Fault>
    ensures octets { IfOk result (λ octets. octets ≡ replicate size 0) }
    ensures memory { IfErr result (λ why. why ≡ Memory) }
{
    match vec![in alloc; 0u8; usize::from(size)] {
        Ok(octets) => Ok(Octets::from_vec(octets)),
        Err(_) => Err(Fault::Memory),
    }
}

// Reads a key without its bytes, after its kind.
#[tactic(auto, unfolding(crate::specs::Layout::bare_key))]
fn bare_key(alloc: Global, cursor: &mut Cursor<'_>, size: u16) -> Result<Fact, Fault>
    ensures { Moves result cursor.new (bare_key size cursor.old) }
{
    let name = cursor.long_name(NameKind::Key)?;
    let master = cursor.sae()?;
    let slave = cursor.sae()?;
    let _same = cursor.within(size, size)?;
    let route = cursor.route()?;
    let bytes = zeros(alloc, size)?;
    Ok(Fact::Key {
        name,
        master,
        slave,
        route,
        bytes,
    })
}

// Reads a chunk without its bytes, after its kind.
#[tactic(auto, unfolding(crate::specs::Layout::bare_chunk))]
fn bare_chunk(alloc: Global, cursor: &mut Cursor<'_>, size: u16) -> Result<Fact, Fault>
    ensures { Moves result cursor.new (bare_chunk size cursor.old) }
{
    let name = cursor.long_name(NameKind::Key)?;
    let stream = cursor.long_name(NameKind::Stream)?;
    let index = cursor.index()?;
    let _same = cursor.within(size, size)?;
    let route = cursor.route()?;
    let bytes = zeros(alloc, size)?;
    Ok(Fact::Chunk {
        name,
        stream,
        index,
        route,
        bytes,
    })
}

// Reads a part of a group key without its bytes, after its kind.
#[tactic(auto, unfolding(crate::specs::Layout::bare_part))]
fn bare_part(alloc: Global, cursor: &mut Cursor<'_>, size: u16) -> Result<Fact, Fault>
    ensures { Moves result cursor.new (bare_part size cursor.old) }
{
    let name = cursor.long_name(NameKind::Key)?;
    let key = cursor.long_name(NameKind::Key)?;
    let master = cursor.sae()?;
    let slave = cursor.sae()?;
    let _same = cursor.within(size, size)?;
    let route = cursor.route()?;
    let bytes = zeros(alloc, size)?;
    Ok(Fact::Part {
        name,
        key,
        master,
        slave,
        route,
        bytes,
    })
}

/// Reads a fact without its bytes. The fact then has `size` zeros for its bytes.
#[tactic(auto, unfolding(crate::specs::Layout::bare_fact))]
pub fn bare_fact(alloc: Global, cursor: &mut Cursor<'_>, size: u16) -> Result<Fact, Fault>
    ensures { Moves result cursor.new (bare_fact size cursor.old) }
{
    let left = cursor.len();
    match cursor.octet()? {
        1 => bare_key(alloc, cursor, size),
        6 => bare_chunk(alloc, cursor, size),
        7 => bare_part(alloc, cursor, size),
        _ => Err(Fault::Left(left)),
    }
}
