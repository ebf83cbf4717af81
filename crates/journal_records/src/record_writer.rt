// Writing records at a place in a buffer.
ghost use Rattle.std.specs.Prelude.{◌≡◌, ◌+◌, ◌-◌, ◌*◌, ◌≤◌, length};
ghost use Rattle.qkd_base.specs.Name.{IsName, kind_number};
ghost use Rattle.net_model.specs.Facts.{fact_len, IsWellFormedFact};
ghost use Rattle.net_model.specs.Formed.{IsWellFormedRecord, IsBareFact};
ghost use Rattle.net_model.specs.Journal.{record_len};
ghost use Rattle.net_model.specs.Table.{bytes_of};
ghost use Rattle.net_model.specs.declared.record.Record.TheVariants.{Learned as LearnedRecord, Bare as BareRecord};
ghost use Rattle.frame_codec.specs.Payload.{IsFact};
ghost use Rattle.frame_codec.specs.Writing.{Puts};
ghost use Rattle.journal_records.specs.Grammar.{IsRecord, short_name, name_octets, name_size, bare_octets, record_octets};
ghost use Rattle.journal_records.specs.declared.version.Version.TheVariants.{First};

use crate::Version;
use crate::batch_size::bytes_len;
use frame_codec::payload_printer::{put, put_fact, put_long, put_name, put_sae, put_short};
use net_model::{Fact, Record, fact_size};
use qkd_base::{FrameOctets, KeyName, NameKind, Way};

fn kind_octet(kind: NameKind) -> u8
    ensures { result ≡ 16 * kind_number kind }
{
    match kind {
        NameKind::Key => 0,
        NameKind::Stream => 16,
        NameKind::Note => 32,
    }
}

/// Writes the 7 octets of a name.
pub fn put_short_name(into: &mut [u8], at: usize, name: KeyName) -> usize
    requires { at + 7 ≤ length into.old }
    ensures octets { Puts into.old into.new at result (short_name name) }
    ensures named { IsName name }
{
    let count = name.count().to_be_bytes();
    let at = put(into, at, &[kind_octet(name.kind()) + name.node().get()]);
    put(into, at, &count[2..])
}

// Writes a name in the version's spelling.
fn put_name_of(into: &mut [u8], at: usize, name: KeyName, version: Version) -> usize
    requires { at + name_size version ≤ length into.old }
    ensures octets { Puts into.old into.new at result (name_octets version name) }
    ensures named { IsName name }
{
    match version {
        Version::First => put_name(into, at, name),
        Version::Second => put_short_name(into, at, name),
    }
}

// Writes a fact without its bytes.
fn put_bare(into: &mut [u8], at: usize, fact: &Fact) -> usize
    requires bare { IsBareFact fact.now }
    requires fits { at + (fact_len fact.now - length (bytes_of fact.now)) ≤ length into.old }
    ensures octets { Puts into.old into.new at result (bare_octets fact.now) }
    ensures grammar { IsFact fact.now }
{
    let size = usize::from(fact_size(fact)) - bytes_len(fact);
    let mut room = FrameOctets::new();
    put_fact(&mut room.octets, 0, fact);
    put(into, at, &room.octets[..size])
}

// Writes the length of a fact, and then the fact.
fn put_learned(into: &mut [u8], at: usize, fact: &Fact) -> usize
    requires formed { IsWellFormedFact fact.now }
    requires fits { at + (3 + fact_len fact.now) ≤ length into.old }
    ensures octets { Puts into.old into.new at result (record_octets First (LearnedRecord fact.now)) }
    ensures grammar { IsFact fact.now }
{
    let at = put(into, at, &[3]);
    let at = put_short(into, at, fact_size(fact));
    put_fact(into, at, fact)
}

// Writes the number of a fact's bytes, and then the fact without them.
fn put_bare_record(into: &mut [u8], at: usize, fact: &Fact) -> usize
    requires bare { IsBareFact fact.now }
    requires fits { at + (3 + (fact_len fact.now - length (bytes_of fact.now))) ≤ length into.old }
    ensures octets { Puts into.old into.new at result (record_octets First (BareRecord fact.now)) }
    ensures grammar { IsFact fact.now }
{
    let at = put(into, at, &[7]);
    let at = put_short(into, at, bytes_len(fact) as u16);
    put_bare(into, at, fact)
}

/// Writes a record that is no part of a run.
pub fn put_record(into: &mut [u8], at: usize, change: &Record, version: Version) -> usize
    requires formed { IsWellFormedRecord change.now }
    requires fits { at + record_len (name_size version) change.now ≤ length into.old }
    ensures octets { Puts into.old into.new at result (record_octets version change.now) }
    ensures grammar { IsRecord change.now }
{
    match change {
        Record::Block {
            link,
            number,
            bytes,
        } => {
            let at = put(into, at, &[1, link.get()]);
            let at = put_long(into, at, *number);
            put(into, at, bytes.as_slice())
        }
        Record::Lease { lane, end } => {
            let way = match lane.way {
                Way::Up => 0,
                Way::Down => 1,
            };
            let at = put(into, at, &[2, lane.link.get(), way]);
            put(into, at, &end.to_be_bytes())
        }
        Record::Learned { fact } => put_learned(into, at, fact),
        Record::Acked { name } => {
            let at = put(into, at, &[4]);
            put_name_of(into, at, *name, version)
        }
        Record::Handed { name, sae } => {
            let at = put(into, at, &[5]);
            let at = put_name_of(into, at, *name, version);
            put_sae(into, at, *sae)
        }
        Record::Closed { stream, sae } => {
            let at = put(into, at, &[6]);
            let at = put_name_of(into, at, *stream, version);
            put_sae(into, at, *sae)
        }
        Record::Bare { fact } => put_bare_record(into, at, fact),
    }
}
