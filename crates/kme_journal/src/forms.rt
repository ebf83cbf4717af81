// Which records an event may make.
ghost use Rattle.std.specs.Prelude.{◌≡◌, ◌↔◌, IsTrue};
ghost use Rattle.std.specs.List.{All};
ghost use Rattle.net_model.specs.Facts.{IsSize, IsWellFormedFact};
ghost use Rattle.journal_records.specs.Grammar.{IsLearned};
ghost use Rattle.kme_journal.specs.Spelled.{IsMade};

use net_model::{Fact, Record};
use qkd_base::{KeyName, NameKind};

// Whether a key may have this size in octets.
fn is_size(size: usize) -> bool
    ensures { IsTrue result ↔ IsSize size }
{
    8 <= size && size <= 512
}

// Whether a name is of this kind.
fn is_of(name: KeyName, kind: NameKind) -> bool
    ensures { IsTrue result ↔ (name.kind ≡ kind) }
{
    name.kind() == kind
}

// Whether the names and the octets of a fact are those of its kind.
fn is_formed_fact(fact: &Fact) -> bool
    ensures { IsTrue result ↔ IsWellFormedFact fact.now }
{
    match fact {
        Fact::Key { name, bytes, .. } => is_of(*name, NameKind::Key) && is_size(bytes.len()),
        Fact::Chunk {
            name,
            stream,
            bytes,
            ..
        } => {
            is_of(*name, NameKind::Key) && is_of(*stream, NameKind::Stream) && is_size(bytes.len())
        }
        Fact::Stored { note, about, .. } => {
            is_of(*note, NameKind::Note) && is_of(*about, NameKind::Key)
        }
        Fact::Open { stream, length, .. } => {
            is_of(*stream, NameKind::Stream) && is_size(usize::from(*length))
        }
        Fact::Joined { note, about, .. } => {
            is_of(*note, NameKind::Note) && is_of(*about, NameKind::Stream)
        }
        Fact::Part {
            name,
            key,
            bytes,
            ..
        } => { is_of(*name, NameKind::Key) && is_of(*key, NameKind::Key) && is_size(bytes.len()) }
    }
}

// Whether a record is one that an event may make.
fn is_made(change: &Record) -> bool
    ensures { IsTrue result ↔ IsMade change.now }
{
    match change {
        Record::Block { bytes, .. } => bytes.len() == 1024,
        Record::Lease { .. } => true,
        Record::Learned { fact } => is_formed_fact(fact),
        Record::Acked { .. } => true,
        Record::Handed { .. } => true,
        Record::Closed { stream, .. } => is_of(*stream, NameKind::Stream),
        Record::Bare { .. } => false,
    }
}

/// Whether all records are such as an event may make.
pub fn are_made(batch: &[Record]) -> bool
    ensures { IsTrue result ↔ All IsMade batch.now }
{
    for change in batch {
        if !is_made(change) {
            return false;
        }
    }
    true
}

// Whether a record learns a fact.
fn is_learned(change: &Record) -> bool
    ensures { IsTrue result ↔ IsLearned change.now }
{
    match change {
        Record::Learned { .. } => true,
        _ => false,
    }
}

/// Whether all records learn facts.
pub fn are_learned(batch: &[Record]) -> bool
    ensures { IsTrue result ↔ All IsLearned batch.now }
{
    for change in batch {
        if !is_learned(change) {
            return false;
        }
    }
    true
}
