// The tallies of streams: cached numbers of their chunks.
ghost use Rattle.std.specs.Prelude.{◌≡◌, ◌↔◌, IsTrue, None, length};
ghost use Rattle.qkd_base.specs.Name.{Name, kind_number};
ghost use Rattle.stream_core.specs.Tallied.{stream_key, tally_at, IsPut};

use qkd_base::{KeyName, NameKind, SaeNo};
use std::alloc::Global;
use std::collections::BTreeMap;
use std::marker::Model;

/// The number of chunks of a stream that are known, and how many of them its source has got.
#[derive(Clone, Copy, Debug)]
pub struct Tally {
    pub source: SaeNo,
    pub chunks: u64,
    pub given: u64,
}

/// The tallies of some streams. A stream has no tally if memory ran out when it was put.
#[derive(Drop)]
pub struct Tallies {
    tallies: BTreeMap<[u64; 3], Tally>,
}

impl Model for Tallies {
    ghost use Rattle.std.specs.Prelude.{List, ℕ};
    ghost use Rattle.stream_core.specs.declared.tallies.Tally.{Tally};

    ghost Value = { List (List ℕ × Tally) };

    ghost view = { λ t. t.tallies.entries };
}

// The number that stands for a kind of names.
fn kind_number(kind: NameKind) -> u64
    ensures { result ≡ kind_number kind }
{
    match kind {
        NameKind::Key => 0,
        NameKind::Stream => 1,
        NameKind::Note => 2,
    }
}

// The map key of a stream.
fn stream_key(stream: KeyName) -> [u64; 3]
    ensures { result ≡ stream_key stream }
{
    [
        stream.node().get() as u64,
        kind_number(stream.kind()),
        stream.count(),
    ]
}

impl Tallies {
    /// A map without tallies. It allocates nothing.
    pub fn new(alloc: Global) -> Self
        ensures { (stream : Name) → tally_at result stream ≡ None }
    {
        Tallies {
            tallies: BTreeMap::new(alloc),
        }
    }

    /// Whether the map has no tallies.
    pub fn is_empty(&self) -> bool
        ensures { IsTrue result ↔ (length self.now ≡ 0) }
    {
        self.tallies.is_empty()
    }

    /// The tally of a stream, if the map has one.
    pub fn find(&self, stream: KeyName) -> Option<Tally>
        ensures { result ≡ tally_at self.now stream }
    {
        self.tallies.get(&stream_key(stream)).copied()
    }

    /// Sets the tally of a stream. If the stream has none and memory runs out, it still has none afterwards.
    pub fn put(&mut self, stream: KeyName, tally: Tally)
        ensures { IsPut self.old self.new stream tally }
    {
        match self.tallies.insert(stream_key(stream), tally) {
            Ok(_) => {}
            Err(_) => {}
        }
    }
}
