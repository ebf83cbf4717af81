// Decoding bodies of records.
ghost use Rattle.std.specs.Prelude.{◌≡◌, [], IfOk, Ok, None, List};
ghost use Rattle.std.specs.List.{All};
ghost use Rattle.net_model.specs.Formed.{IsWellFormedRecord};
ghost use Rattle.net_model.specs.declared.record.Record.{Record as RecordValue};
ghost use Rattle.journal_records.specs.Answers.{Moves, Adds, AddsAll, Ends, Reads};
ghost use Rattle.journal_records.specs.Grammar.{IsBatch, body_octets};
ghost use Rattle.journal_records.specs.Layout.{block, lease, learned, acked, handed, closed, bare, one_of, is_run, handings, run_of, item, many, records_left, batch_of};
ghost use Rattle.journal_records.specs.declared.version.Version.TheVariants.{First, Second};

use crate::cursor::Cursor;
use crate::facts::{bare_fact, whole_fact};
use crate::{RecordRefusal, Version};
use frame_codec::fault::Fault;
use frame_codec::fields::last_of;
use net_model::{Record, Records};
use qkd_base::{Lane, SaeNo};
use std::alloc::Global;

// ---- records, after the octet of their kind

#[tactic(auto, unfolding(crate::specs::Layout::block))]
fn block(alloc: Global, cursor: &mut Cursor<'_>) -> Result<Record, Fault>
    ensures { Moves result cursor.new (block cursor.old) }
{
    let link = cursor.link()?;
    let number = cursor.index()?;
    let bytes = cursor.plain(alloc, 1024)?;
    Ok(Record::Block {
        link,
        number,
        bytes,
    })
}

#[tactic(auto, unfolding(crate::specs::Layout::lease))]
fn lease(cursor: &mut Cursor<'_>) -> Result<Record, Fault>
    ensures { Moves result cursor.new (lease cursor.old) }
{
    let link = cursor.link()?;
    let way = cursor.way()?;
    let end = cursor.end()?;
    Ok(Record::Lease {
        lane: Lane { link, way },
        end,
    })
}

#[tactic(auto, unfolding(crate::specs::Layout::learned))]
fn learned(alloc: Global, cursor: &mut Cursor<'_>) -> Result<Record, Fault>
    ensures { Moves result cursor.new (learned cursor.old) }
{
    let size = cursor.within(0, 65535)?;
    let fact = whole_fact(alloc, cursor, size)?;
    Ok(Record::Learned { fact })
}

#[tactic(auto, unfolding(crate::specs::Layout::acked))]
fn acked(cursor: &mut Cursor<'_>, version: Version) -> Result<Record, Fault>
    ensures { Moves result cursor.new (acked version cursor.old) }
{
    let name = cursor.name(version)?;
    Ok(Record::Acked { name })
}

#[tactic(auto, unfolding(crate::specs::Layout::handed))]
fn handed(cursor: &mut Cursor<'_>, version: Version) -> Result<Record, Fault>
    ensures { Moves result cursor.new (handed version cursor.old) }
{
    let name = cursor.name(version)?;
    let sae = cursor.sae()?;
    Ok(Record::Handed { name, sae })
}

#[tactic(auto, unfolding(crate::specs::Layout::closed))]
fn closed(cursor: &mut Cursor<'_>, version: Version) -> Result<Record, Fault>
    ensures { Moves result cursor.new (closed version cursor.old) }
{
    let stream = cursor.stream(version)?;
    let sae = cursor.sae()?;
    Ok(Record::Closed { stream, sae })
}

#[tactic(auto, unfolding(crate::specs::Layout::bare))]
fn bare(alloc: Global, cursor: &mut Cursor<'_>) -> Result<Record, Fault>
    ensures { Moves result cursor.new (bare cursor.old) }
{
    let size = cursor.size()?;
    let fact = bare_fact(alloc, cursor, size)?;
    Ok(Record::Bare { fact })
}

// Reads a record of this kind. At the octet of the kind, `left` octets were left.
fn one_of(
    alloc: Global,
    cursor: &mut Cursor<'_>,
    version: Version,
    left: usize,
    kind: u8,
) -> Result<Record, Fault>
    ensures { Moves result cursor.new (one_of version left kind cursor.old) }
{
    match kind {
        1 => block(alloc, cursor),
        2 => lease(cursor),
        3 => learned(alloc, cursor),
        4 => acked(cursor, version),
        5 => handed(cursor, version),
        6 => closed(cursor, version),
        7 => bare(alloc, cursor),
        _ => Err(Fault::Left(left)),
    }
}

// ---- spelled records

fn is_run(version: Version, kind: u8) -> bool
    ensures { result ≡ is_run version kind }
{
    match version {
        Version::First => false,
        Version::Second => kind == 5,
    }
}

// Reads `count` handings to one application.
fn handings(
    cursor: &mut Cursor<'_>,
    sae: SaeNo,
    count: u16,
    records: &mut Records,
) -> Result<(), Fault>
    ensures { AddsAll result records.new cursor.new (handings sae count records.old cursor.old) }
{
    for i in 0..count {
        let name = cursor.short_name()?;
        match records.push(Record::Handed { name, sae }) {
            Err(_) => return Err(Fault::Memory),
            Ok(()) => {}
        }
    }
    Ok(())
}

// Reads a run. At the octet of its kind, `left` octets were left. Returns the application to which the next run may not be.
#[tactic(auto, unfolding(crate::specs::Layout::run_of))]
fn run_of(
    cursor: &mut Cursor<'_>,
    left: usize,
    shut: Option<SaeNo>,
    records: &mut Records,
) -> Result<Option<SaeNo>, Fault>
    ensures { Adds result records.new cursor.new (run_of left shut records.old cursor.old) }
{
    let sae = cursor.sae()?;
    if shut == Some(sae) {
        return Err(Fault::Left(left));
    }
    let count = cursor.within(1, 128)?;
    handings(cursor, sae, count, records)?;
    if count < 128 { Ok(Some(sae)) } else { Ok(None) }
}

// Reads the next spelled record.
#[tactic(auto, unfolding(crate::specs::Layout::item))]
fn item(
    alloc: Global,
    cursor: &mut Cursor<'_>,
    version: Version,
    shut: Option<SaeNo>,
    records: &mut Records,
) -> Result<Option<SaeNo>, Fault>
    ensures { Adds result records.new cursor.new (item version shut records.old cursor.old) }
{
    let left = cursor.len();
    let kind = cursor.octet()?;
    if is_run(version, kind) {
        return run_of(cursor, left, shut, records);
    }
    let change = one_of(alloc, cursor, version, left, kind)?;
    records.push(change)?;
    Ok(None)
}

// Reads `count` spelled records.
fn many(
    alloc: Global,
    cursor: &mut Cursor<'_>,
    version: Version,
    count: u16,
    records: &mut Records,
) -> Result<(), Fault>
    ensures { AddsAll result records.new cursor.new (many version count None records.old cursor.old) }
{
    let mut shut = None;
    for i in 0..count {
        shut = item(alloc, cursor, version, shut, records)?;
    }
    Ok(())
}

// Reads a body.
#[tactic(auto, unfolding(crate::specs::Layout::records_left))]
fn records_left(alloc: Global, octets: &[u8], version: Version) -> Result<Records, Fault>
    ensures { Ends result (records_left version octets.now) }
{
    let mut cursor = Cursor::new(octets);
    let count = cursor.within(1, 65535)?;
    let mut records = Records::new(alloc);
    many(alloc, &mut cursor, version, count, &mut records)?;
    last_of(cursor.left(), 0)?;
    Ok(records)
}

// Reads a body, or finds the place of the field that doesn't fit.
#[tactic(auto, unfolding(crate::specs::Layout::batch_of))]
fn batch_at(alloc: Global, octets: &[u8], version: Version) -> Result<Records, RecordRefusal>
    ensures { Reads result (batch_of version octets.now) }
{
    match records_left(alloc, octets, version) {
        Ok(records) => Ok(records),
        // There are never more octets left than there were at first.
        Err(Fault::Left(left)) => Err(RecordRefusal::NotARecord(octets.len().saturating_sub(left))),
        Err(Fault::Memory) => Err(RecordRefusal::Memory),
    }
}

/// Decodes all records of a body in the first version.
pub fn read_batch(alloc: Global, octets: &[u8]) -> Result<Records, RecordRefusal>
    // The result is a batch of the grammar, and the octets are its encoding.
    ensures found { IfOk result (λ batch. IsBatch First batch × (octets.now ≡ body_octets First batch)) }
    ensures formed { IfOk result (λ batch. All IsWellFormedRecord batch) }
    // The encoding of each batch is decoded, unless memory runs out.
    ensures only { (batch : List RecordValue) → IsBatch First batch → octets.now ≡ body_octets First batch → Reads result (Ok batch) }
    // Which records the result has, and which place a refusal tells.
    ensures exact { Reads result (batch_of First octets.now) }
{
    batch_at(alloc, octets, Version::First)
}

/// Decodes all records of a body in the second version.
pub fn read_batch_2(alloc: Global, octets: &[u8]) -> Result<Records, RecordRefusal>
    // The result is a batch of the grammar, and the octets are its encoding.
    ensures found { IfOk result (λ batch. IsBatch Second batch × (octets.now ≡ body_octets Second batch)) }
    ensures formed { IfOk result (λ batch. All IsWellFormedRecord batch) }
    // The encoding of each batch is decoded, unless memory runs out.
    ensures only { (batch : List RecordValue) → IsBatch Second batch → octets.now ≡ body_octets Second batch → Reads result (Ok batch) }
    // Which records the result has, and which place a refusal tells.
    ensures exact { Reads result (batch_of Second octets.now) }
{
    batch_at(alloc, octets, Version::Second)
}
