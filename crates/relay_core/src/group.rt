// Groups of facts, and the index entry of a fact in a group.
ghost use Rattle.std.specs.Prelude.{◌≡◌};
ghost use Rattle.qkd_base.specs.Name.{has, kind_number, name_eq};
ghost use Rattle.net_model.specs.Table.{is_stored_about, is_joined_about, is_part_of};
ghost use Rattle.net_model.specs.Streams.{is_chunk_at, is_chunk_of};
ghost use Rattle.relay_core.specs.Index.{belongs, entry_of, name_entry, origin_number, tagged, is_owed_to};

use crate::fact_parts::{fact_name, fact_route};
use net_model::Fact;
use ordered_set::Entry;
use qkd_base::{KeyName, NameKind, NodeNo};

/// A group of facts that are looked up together.
#[derive(Clone, Copy)]
pub enum Group {
    /// The fact with this name.
    Named(KeyName),
    /// The Stored notes about a key, chunk or part.
    StoredAbout(KeyName),
    /// The Joined notes about a stream.
    JoinedAbout(KeyName),
    /// The parts of a group key.
    PartsOf(KeyName),
    /// The chunks of a stream at an index.
    ChunksAt(KeyName, u32),
    /// The facts that this neighbour is owed: it comes next on their route and hasn't acknowledged them.
    OwedTo(NodeNo),
    /// The chunks of a stream.
    ChunksOf(KeyName),
}

// The number of a kind of name.
fn kind_number(kind: NameKind) -> u8
    ensures { result ≡ kind_number kind }
{
    match kind {
        NameKind::Key => 0,
        NameKind::Stream => 1,
        NameKind::Note => 2,
    }
}

/// Packs a name's kind and node into one number below 1,024. Two names with the same count differ exactly where these
/// numbers differ.
pub fn origin_number(name: KeyName) -> u32
    ensures { result ≡ origin_number name }
{
    kind_number(name.kind()) as u32 + 4 * name.node().get() as u32
}

// Packs a tag and a number into one number.
fn tagged(tag: u8, number: u32) -> u64
    ensures { result ≡ tagged tag number }
{
    tag as u64 + 8 * number as u64
}

// Builds the entry of a group from a name and an index. The count comes first since it differs most often, so most
// comparisons end there.
fn name_entry(tag: u8, name: KeyName, index: u32, place: usize) -> Entry
    ensures { result ≡ name_entry tag name index place }
{
    [
        name.count(),
        tagged(tag, origin_number(name)),
        index as u64,
        0,
        place as u64,
    ]
}

// Whether a fact is a Stored note about a name.
fn is_stored_about(fact: &Fact, name: KeyName) -> bool
    ensures { result ≡ is_stored_about name fact.now }
{
    match fact {
        Fact::Stored { about, .. } => *about == name,
        _ => false,
    }
}

// Whether a fact is a Joined note about a stream.
fn is_joined_about(fact: &Fact, stream: KeyName) -> bool
    ensures { result ≡ is_joined_about stream fact.now }
{
    match fact {
        Fact::Joined { about, .. } => *about == stream,
        _ => false,
    }
}

// Whether a fact is a part of a group key.
fn is_part_of(fact: &Fact, name: KeyName) -> bool
    ensures { result ≡ is_part_of name fact.now }
{
    match fact {
        Fact::Part { key, .. } => *key == name,
        _ => false,
    }
}

// Whether a fact is the chunk of a stream at an index.
fn is_chunk_at(fact: &Fact, of: KeyName, at: u32) -> bool
    ensures { result ≡ is_chunk_at of at fact.now }
{
    match fact {
        Fact::Chunk { stream, index, .. } => *stream == of && *index == at,
        _ => false,
    }
}

// Whether a fact is a chunk of a stream.
fn is_chunk_of(fact: &Fact, of: KeyName) -> bool
    ensures { result ≡ is_chunk_of of fact.now }
{
    match fact {
        Fact::Chunk { stream, .. } => *stream == of,
        _ => false,
    }
}

/// Whether a name is in a list.
pub fn has_name(names: &[KeyName], name: KeyName) -> bool
    ensures { result ≡ has names.now name }
{
    names.iter().any(|n| *n == name)
}

// Whether a fact is owed to a neighbour: it comes next on the fact's route and hasn't acknowledged the fact.
fn is_owed_to(fact: &Fact, me: NodeNo, acked: &[KeyName], to: NodeNo) -> bool
    ensures { result ≡ is_owed_to me acked.now to fact.now }
{
    match fact_route(fact).next_after(me) {
        None => false,
        Some(next) => next == to && !has_name(acked, fact_name(fact)),
    }
}

impl Group {
    /// Whether a fact belongs to the group, at a node that received acknowledgements of the names `acked`.
    pub fn contains(&self, fact: &Fact, me: NodeNo, acked: &[KeyName]) -> bool
        ensures { result ≡ belongs me acked.now self.now fact.now }
    {
        match *self {
            Group::Named(name) => fact_name(fact) == name,
            Group::StoredAbout(name) => is_stored_about(fact, name),
            Group::JoinedAbout(stream) => is_joined_about(fact, stream),
            Group::PartsOf(name) => is_part_of(fact, name),
            Group::ChunksAt(stream, index) => is_chunk_at(fact, stream, index),
            Group::OwedTo(to) => is_owed_to(fact, me, acked, to),
            Group::ChunksOf(stream) => is_chunk_of(fact, stream),
        }
    }

    /// The index entry of this group for the fact at a place.
    pub fn entry(&self, place: usize) -> Entry
        ensures { result ≡ entry_of self.now place }
    {
        match *self {
            Group::Named(name) => name_entry(0, name, 0, place),
            Group::StoredAbout(name) => name_entry(1, name, 0, place),
            Group::JoinedAbout(stream) => name_entry(2, stream, 0, place),
            Group::PartsOf(name) => name_entry(3, name, 0, place),
            Group::ChunksAt(stream, index) => name_entry(4, stream, index, place),
            Group::OwedTo(to) => [0, tagged(5, to.get() as u32), 0, 0, place as u64],
            Group::ChunksOf(stream) => name_entry(6, stream, 0, place),
        }
    }
}
