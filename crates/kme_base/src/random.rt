// Drawn random octets, written into a batch's records.
ghost use Rattle.std.specs.Prelude.{◌≡◌, ◌<◌, length, drop};
ghost use Rattle.kme_base.specs.Random.{over, fact_over, record_over, has_part_next, fact_spends, spends, first_spends, with_random};

use net_model::{Fact, Record, Records};
use qkd_base::{Items, KeyName, Octets};
use std::alloc::Global;
use std::mem;

// Overwrites the first octets with drawn ones, as many as both have.
fn write_octets(octets: &mut [u8], random: &[u8])
    ensures { octets.new ≡ over random.now octets.old }
{
    let size = octets.len().min(random.len());
    octets[..size].copy_from_slice(&random[..size]);
}

// Overwrites the first bytes of a list with drawn octets, as many as both have.
fn write_over(alloc: Global, bytes: &mut Octets, random: &[u8])
    ensures { bytes.new ≡ over random.now bytes.old }
{
    let mut octets = mem::replace(bytes, Octets::new(alloc)).into_vec();
    write_octets(&mut octets, random);
    *bytes = Octets::from_vec(octets);
}

// Overwrites the bytes of a key, chunk or part with the first drawn octets.
fn write_fact(alloc: Global, fact: &mut Fact, random: &[u8])
    ensures { fact.new ≡ fact_over random.now fact.old }
{
    match fact {
        Fact::Key { bytes, .. } => write_over(alloc, bytes, random),
        Fact::Chunk { bytes, .. } => write_over(alloc, bytes, random),
        Fact::Part { bytes, .. } => write_over(alloc, bytes, random),
        _ => {}
    }
}

// Overwrites the bytes of the fact that a record tells with the first drawn octets.
fn write_record(alloc: Global, entry: &mut Record, random: &[u8])
    ensures { entry.new ≡ record_over random.now entry.old }
{
    match entry {
        Record::Learned { fact } => write_fact(alloc, fact, random),
        _ => {}
    }
}

// Whether the next record tells a part of this group key.
fn has_part_next(key: KeyName, rest: &[Record]) -> bool
    ensures { result ≡ has_part_next key rest.now }
{
    match rest.first() {
        Some(
            Record::Learned {
                fact: Fact::Part { key: next, .. },
            },
        ) => *next == key,
        _ => false,
    }
}

// How many drawn octets a fact uses up, so that the next records don't get them.
fn fact_spends(fact: &Fact, rest: &[Record]) -> usize
    ensures { result ≡ fact_spends fact.now rest.now }
{
    match fact {
        Fact::Key { bytes, .. } => bytes.len(),
        Fact::Chunk { bytes, .. } => bytes.len(),
        Fact::Part { key, bytes, .. } => {
            if has_part_next(*key, rest) {
                0
            } else {
                bytes.len()
            }
        }
        _ => 0,
    }
}

// How many drawn octets a record uses up.
fn spends(entry: &Record, rest: &[Record]) -> usize
    ensures { result ≡ spends entry.now rest.now }
{
    match entry {
        Record::Learned { fact } => fact_spends(fact, rest),
        _ => 0,
    }
}

// How many drawn octets the record at a place uses up.
fn spends_at(records: &[Record], place: usize) -> usize
    requires { place < length records.now }
    ensures { result ≡ first_spends (drop place records.now) }
{
    match records[place..].split_first() {
        None => 0,
        Some((entry, rest)) => spends(entry, rest),
    }
}

// Overwrites the bytes of all facts with drawn octets, in order.
fn write_all(alloc: Global, records: &mut [Record], random: &[u8])
    ensures { records.new ≡ with_random random.now records.old }
{
    let mut rest = random;
    for place in 0..records.len() {
        let size = spends_at(records, place);
        write_record(alloc, &mut records[place], rest);
        rest = &rest[size.min(rest.len())..];
    }
}

/// Replaces the octets of a batch's keys, chunks and parts by drawn ones. It allocates no memory.
pub fn write_random(alloc: Global, batch: &mut Records, random: &[u8])
    ensures { batch.new ≡ with_random random.now batch.old }
{
    let mut records = mem::replace(batch, Items::new(alloc)).into_vec();
    write_all(alloc, &mut records, random);
    *batch = Items::from_vec(records);
}
