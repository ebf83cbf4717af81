// Encoding bodies of records.
ghost use Rattle.std.specs.Prelude.{◌≡◌, ◌+◌, ◌≤◌, ◌<◌, ◌++◌, ◌∷◌, [], length, take, drop, IfOk};
ghost use Rattle.std.specs.List.{All};
ghost use Rattle.qkd_base.specs.Name.{IsName};
ghost use Rattle.net_model.specs.Formed.{IsWellFormedRecord};
ghost use Rattle.net_model.specs.Journal.{body_len};
ghost use Rattle.net_model.specs.declared.record.Record.TheVariants.{Handed as HandedRecord};
ghost use Rattle.frame_codec.specs.Payload.{IsSae};
ghost use Rattle.frame_codec.specs.Writing.{Puts};
ghost use Rattle.journal_records.specs.Grammar.{IsRecord, IsBatch, IsLearned, run_len, run_head, items, octets_left, rest_octets, body_octets};
ghost use Rattle.journal_records.specs.declared.version.Version.TheVariants.{First, Second};

use crate::Version;
use crate::batch_size::{size_of, tally_of};
use crate::record_writer::{put_record, put_short_name};
use frame_codec::payload_printer::{put, put_sae, put_short};
use net_model::{Record, Records};
use qkd_base::{KeyName, Memory, Octets, SaeNo};
use std::alloc::Global;
use std::mem;

// How many of the first 128 records are handings to this application, up to the first other record.
fn run_len(records: &[Record], sae: SaeNo) -> u16
    ensures len { result ≡ run_len sae 128 records.now }
    ensures few { result ≤ 128 }
{
    let wanted = sae.get();
    let mut count = 0;
    for change in records {
        match change {
            Record::Handed { sae: other, .. } => {
                let to = other.get();
                if to != wanted || count >= 128 {
                    return count;
                }
                count += 1;
            }
            _ => return count,
        }
    }
    count
}

// Writes the head of a run: its kind, the application, and how many names the run has.
fn put_run_head(into: &mut [u8], at: usize, sae: SaeNo, names: u16) -> usize
    requires { at + 5 ≤ length into.old }
    ensures octets { Puts into.old into.new at result (run_head sae names) }
    ensures below { IsSae sae }
{
    let at = put(into, at, &[5]);
    let at = put_sae(into, at, sae);
    put_short(into, at, names)
}

// Writes the next handing of a run of which `left` names are still to come, or begins a new run if `left` is 0.
fn put_handing(
    into: &mut [u8],
    at: usize,
    records: &[Record],
    left: u16,
    name: KeyName,
    sae: SaeNo,
) -> (usize, u16)
    requires first { records.now ≡ HandedRecord name sae ∷ drop 1 records.now }
    requires fits { at + length (octets_left left records.now) ≤ length into.old }
    ensures octets { take result.0 into.new ++ octets_left result.1 (drop 1 records.now) ≡ take at into.old ++ octets_left left records.now }
    ensures within { result.0 ≤ length into.new }
    ensures grammar { IsName name × IsSae sae }
{
    if left > 0 {
        // Reading the number shows the invariant that it is an application's number.
        let _holds = sae.get();
        return (put_short_name(into, at, name), left - 1);
    }
    let names = run_len(records, sae);
    let at = put_run_head(into, at, sae, names);
    (put_short_name(into, at, name), names - 1)
}

// Writes the first of the records in the second version. If a run has begun, `left` of its names are still to come.
fn put_next_2(into: &mut [u8], at: usize, records: &[Record], left: u16) -> (usize, u16)
    requires some { 0 < length records.now }
    requires formed { All IsWellFormedRecord records.now }
    requires fits { at + length (octets_left left records.now) ≤ length into.old }
    ensures octets { take result.0 into.new ++ octets_left result.1 (drop 1 records.now) ≡ take at into.old ++ octets_left left records.now }
    ensures within { result.0 ≤ length into.new }
    ensures grammar { All IsRecord (take 1 records.now) }
{
    match &records[0] {
        Record::Handed { name, sae } => put_handing(into, at, records, left, *name, *sae),
        change => (put_record(into, at, change, Version::Second), 0),
    }
}

// Writes the first of the records in the given version.
fn put_next(
    into: &mut [u8],
    at: usize,
    records: &[Record],
    left: u16,
    version: Version,
) -> (usize, u16)
    requires some { 0 < length records.now }
    requires formed { All IsWellFormedRecord records.now }
    requires fits { at + length (rest_octets version left records.now) ≤ length into.old }
    ensures octets { take result.0 into.new ++ rest_octets version result.1 (drop 1 records.now) ≡ take at into.old ++ rest_octets version left records.now }
    ensures within { result.0 ≤ length into.new }
    ensures grammar { All IsRecord (take 1 records.now) }
{
    match version {
        Version::First => (put_record(into, at, &records[0], Version::First), 0),
        Version::Second => put_next_2(into, at, records, left),
    }
}

// The records from an index on.
fn rest_of(records: &[Record], place: usize) -> &[Record]
    requires { place ≤ length records.now }
    ensures { result.now ≡ drop place records.now }
{
    &records[place..]
}

// Writes all records.
fn put_records(into: &mut [u8], at: usize, records: &[Record], version: Version) -> usize
    requires formed { All IsWellFormedRecord records.now }
    requires fits { at + length (rest_octets version 0 records.now) ≤ length into.old }
    ensures octets { Puts into.old into.new at result (rest_octets version 0 records.now) }
    ensures grammar { All IsRecord records.now }
{
    let mut end = at;
    let mut left = 0;
    for i in 0..records.len() {
        let rest = rest_of(records, i);
        (end, left) = put_next(into, end, rest, left, version);
    }
    end
}

// Writes a body: the number of its spelled records, and then these records.
fn put_body(into: &mut [u8], records: &[Record], version: Version, count: u16)
    requires formed { All IsWellFormedRecord records.now }
    requires count { count ≡ length (items version records.now) }
    requires whole { length into.old ≡ length (body_octets version records.now) }
    ensures octets { into.new ≡ body_octets version records.now }
    ensures grammar { All IsRecord records.now }
{
    let at = put_short(into, 0, count);
    put_records(into, at, records, version);
}

// Makes a body of `size` octets.
fn spelled(
    alloc: Global,
    records: &[Record],
    version: Version,
    size: usize,
    count: u16,
) -> Result<Octets, Memory>
    requires formed { All IsWellFormedRecord records.now }
    requires count { count ≡ length (items version records.now) }
    requires whole { size ≡ length (body_octets version records.now) }
    ensures octets { IfOk result (λ o. o ≡ body_octets version records.now) }
    ensures grammar { IfOk result (λ o. All IsRecord records.now) }
{
    let mut into = vec![in alloc; 0u8; size]?;
    put_body(&mut into, records, version, count);
    Ok(Octets::from_vec(into))
}

/// Encodes 1 to 65,535 records in the first version.
pub fn spell_batch(alloc: Global, batch: &Records) -> Result<Octets, Memory>
    requires formed { All IsWellFormedRecord batch.now }
    requires some { 1 ≤ length batch.now }
    requires few { length batch.now ≤ 65535 }
    ensures octets { IfOk result (λ o. o ≡ body_octets First batch.now) }
    ensures length { IfOk result (λ o. length o ≡ body_len 1 batch.now) }
    ensures grammar { IfOk result (λ o. IsBatch First batch.now) }
{
    let records = batch.as_slice();
    let size = 2 + size_of(records);
    spelled(alloc, records, Version::First, size, records.len() as u16)
}

/// Encodes 1 to 65,535 records in the second version.
pub fn spell_batch_2(alloc: Global, batch: &Records) -> Result<Octets, Memory>
    requires formed { All IsWellFormedRecord batch.now }
    requires some { 1 ≤ length batch.now }
    requires few { length batch.now ≤ 65535 }
    ensures octets { IfOk result (λ o. o ≡ body_octets Second batch.now) }
    ensures length { IfOk result (λ o. length o ≡ body_len 2 batch.now) }
    ensures grammar { IfOk result (λ o. IsBatch Second batch.now) }
{
    let records = batch.as_slice();
    let tally = tally_of(records);
    spelled(
        alloc,
        records,
        Version::Second,
        2 + tally.octets,
        tally.items as u16,
    )
}

/// Replaces the encoding of a batch by that of a batch of learned facts with the same length. It allocates no memory. A batch
/// of learned facts has the same encoding in both versions.
pub fn respell(alloc: Global, batch: &Records, into: &mut Octets)
    requires formed { All IsWellFormedRecord batch.now }
    requires learned { All IsLearned batch.now }
    requires some { 1 ≤ length batch.now }
    requires few { length batch.now ≤ 65535 }
    requires as_long { length into.old ≡ body_len 1 batch.now }
    ensures first { into.new ≡ body_octets First batch.now }
    ensures second { into.new ≡ body_octets Second batch.now }
    ensures grammar { IsBatch First batch.now × IsBatch Second batch.now }
{
    let records = batch.as_slice();
    let mut octets = mem::replace(into, Octets::new(alloc)).into_vec();
    put_body(&mut octets, records, Version::First, records.len() as u16);
    *into = Octets::from_vec(octets);
}
