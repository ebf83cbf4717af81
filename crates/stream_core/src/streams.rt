// The store of a node that is an end of keys and streams.
ghost use Rattle.std.specs.Prelude.{◌≡◌, ◌+◌, ◌<◌, ◌≤◌, [], IfOk, IsOk, OnOk, OnErr, not, count_by};
ghost use Rattle.net_model.specs.Table.{name_of, has_fact, learned, was_handed};
ghost use Rattle.net_model.specs.Fold.{marked};
ghost use Rattle.net_model.specs.Streams.{is_chunk_of, waiting};
ghost use Rattle.relay_core.specs.Knowledge.{acked_with, forgotten};
ghost use Rattle.end_store.specs.Pooled.{ends_view};
ghost use Rattle.stream_core.specs.Tallied.{IsTally};

use crate::tallies::{Tallies, Tally};
use crate::tally_updates::{count_chunks, tally_handing, tally_last};
use end_store::{EndStore, Marks};
use net_model::Fact;
use qkd_base::{KeyName, Memory, NodeNo, SaeNo};
use std::alloc::Global;
use std::marker::Model;

/// What a node knows, which application has got which key or chunk, and which application has closed its end of which
/// stream (ETSI GS QKD 004).
#[derive(Drop)]
pub struct Streams {
    ends: EndStore,
    closed: Marks,
    tallies: Tallies,
}

/// The point at which the feeding of a stream continues: the index of the next chunk, and how many chunks the source
/// hasn't got.
#[derive(Clone, Copy, Debug, PartialEq, Eq)]
pub struct FeedPlace {
    pub next: u64,
    pub waiting: u64,
}

impl Model for Streams {
    ghost use Rattle.stream_core.specs.Kept.{StreamEnds};
    ghost use Rattle.stream_core.specs.Tallied.{AreTallies};

    ghost Value = { StreamEnds };

    ghost view = { λ s. record { ends = s.ends; closed = s.closed.pairs; closed_spare = s.closed.spare } };

    ghost invariant = { λ s. AreTallies s.ends.known.facts s.ends.handed s.tallies };
}

impl Streams {
    /// The store of a node that knows nothing. It allocates nothing.
    pub fn new(alloc: Global, me: NodeNo) -> Self
        ensures known { (result.ends.known.me ≡ me) × (result.ends.known.facts ≡ []) × (result.ends.known.acked ≡ []) }
        ensures handed { result.ends.handed ≡ [] }
        ensures closed { result.closed ≡ [] }
    {
        Streams {
            ends: EndStore::new(alloc, me),
            closed: Marks::new(alloc),
            tallies: Tallies::new(alloc),
        }
    }

    /// The facts that are known, and which application has got which key or chunk.
    pub fn ends(&self) -> &EndStore
        ensures { result.now ≡ self.now.ends }
    {
        &self.ends
    }

    /// The pairs of a stream and an application that has closed its end, in the order in which the ends were closed.
    pub fn closed(&self) -> &[(KeyName, SaeNo)]
        ensures { result.now ≡ self.now.closed }
    {
        self.closed.as_slice()
    }

    /// Whether an application has closed its end of a stream.
    pub fn was_closed(&self, stream: KeyName, sae: SaeNo) -> bool
        ensures { result ≡ was_handed self.now.closed stream sae }
    {
        self.closed.has(stream, sae)
    }

    // The tally of a stream for this source.
    fn tally(&self, stream: KeyName, source: SaeNo) -> Tally
        ensures source { result.source ≡ source }
        ensures tally { IsTally self.now.ends.known.facts self.now.ends.handed stream result }
    {
        match self.tallies.find(stream) {
            None => count_chunks(&self.ends, stream, source),
            Some(tally) => {
                if tally.source == source {
                    tally
                } else {
                    count_chunks(&self.ends, stream, source)
                }
            }
        }
    }

    /// The index of a stream's next chunk, and how many of its chunks this source hasn't got.
    pub fn feed_place(&self, stream: KeyName, source: SaeNo) -> FeedPlace
        ensures next { result.next ≡ count_by (is_chunk_of stream) self.now.ends.known.facts }
        ensures waiting { result.waiting ≡ waiting (ends_view self.now.ends) stream source }
    {
        let tally = self.tally(stream, source);
        FeedPlace {
            next: tally.chunks,
            waiting: tally.chunks - tally.given,
        }
    }

    /// Reserves memory for `more` further facts. An `Err` changes nothing.
    pub fn room(&mut self, more: u32) -> Result<(), Memory>
        ensures known { (self.new.ends.known.me ≡ self.old.ends.known.me) × (self.new.ends.known.facts ≡ self.old.ends.known.facts)
            × (self.new.ends.known.acked ≡ self.old.ends.known.acked) × (self.new.ends.known.acked_spare ≡ self.old.ends.known.acked_spare) }
        ensures marks { (self.new.ends.handed ≡ self.old.ends.handed) × (self.new.ends.handed_spare ≡ self.old.ends.handed_spare)
            × (self.new.closed ≡ self.old.closed) × (self.new.closed_spare ≡ self.old.closed_spare) }
        ensures ok { OnOk result (more ≤ self.new.ends.known.facts_spare) }
        ensures err { OnErr result (self.new ≡ self.old) }
    {
        self.ends.room(more)?;
        Ok(())
    }

    /// Reserves memory for `more` further acknowledgements. An `Err` changes nothing.
    pub fn room_acked(&mut self, more: u32) -> Result<(), Memory>
        ensures known { (self.new.ends.known.me ≡ self.old.ends.known.me) × (self.new.ends.known.facts ≡ self.old.ends.known.facts)
            × (self.new.ends.known.acked ≡ self.old.ends.known.acked) × (self.new.ends.known.facts_spare ≡ self.old.ends.known.facts_spare) }
        ensures marks { (self.new.ends.handed ≡ self.old.ends.handed) × (self.new.ends.handed_spare ≡ self.old.ends.handed_spare)
            × (self.new.closed ≡ self.old.closed) × (self.new.closed_spare ≡ self.old.closed_spare) }
        ensures ok { OnOk result (more ≤ self.new.ends.known.acked_spare) }
        ensures err { OnErr result (self.new ≡ self.old) }
    {
        self.ends.room_acked(more)?;
        Ok(())
    }

    /// Reserves memory for `more` further pairs of a key and an application. An `Err` changes nothing.
    pub fn room_handed(&mut self, more: u32) -> Result<(), Memory>
        ensures known { self.new.ends.known ≡ self.old.ends.known }
        ensures marks { (self.new.ends.handed ≡ self.old.ends.handed) × (self.new.closed ≡ self.old.closed)
            × (self.new.closed_spare ≡ self.old.closed_spare) }
        ensures ok { OnOk result (more ≤ self.new.ends.handed_spare) }
        ensures err { OnErr result (self.new ≡ self.old) }
    {
        self.ends.room_handed(more)?;
        Ok(())
    }

    /// Reserves memory for `more` further closed ends of streams. An `Err` changes nothing.
    pub fn room_closed(&mut self, more: u32) -> Result<(), Memory>
        ensures kept { (self.new.ends ≡ self.old.ends) × (self.new.closed ≡ self.old.closed) }
        ensures ok { OnOk result (more ≤ self.new.closed_spare) }
        ensures err { OnErr result (self.new ≡ self.old) }
    {
        self.closed.room(more)?;
        Ok(())
    }

    /// Learns a fact, unless its name is known, and returns whether it was new. If room was reserved for it, it can't
    /// fail. An `Err` changes nothing.
    pub fn learn(&mut self, fact: Fact) -> Result<bool, Memory>
        ensures new { IfOk result (λ new. new ≡ not (has_fact self.old.ends.known.facts (name_of fact))) }
        ensures facts { OnOk result (self.new.ends.known.facts ≡ learned self.old.ends.known.facts fact) }
        ensures known { (self.new.ends.known.me ≡ self.old.ends.known.me) × (self.new.ends.known.acked ≡ self.old.ends.known.acked)
            × (self.new.ends.known.acked_spare ≡ self.old.ends.known.acked_spare) }
        ensures marks { (self.new.ends.handed ≡ self.old.ends.handed) × (self.new.ends.handed_spare ≡ self.old.ends.handed_spare)
            × (self.new.closed ≡ self.old.closed) × (self.new.closed_spare ≡ self.old.closed_spare) }
        ensures spare { OnOk result (self.old.ends.known.facts_spare ≤ self.new.ends.known.facts_spare + 1) }
        ensures room { 0 < self.old.ends.known.facts_spare → IsOk result }
        ensures err { OnErr result (self.new ≡ self.old) }
    {
        match self.ends.learn(fact) {
            Err(refusal) => Err(refusal),
            Ok(false) => Ok(false),
            Ok(true) => {
                tally_last(&mut self.tallies, &self.ends);
                Ok(true)
            }
        }
    }

    /// Records that the next node of its route has acknowledged the fact of this name, if the fact is owed to that
    /// node. It needs only the room that was reserved.
    pub fn acknowledge(&mut self, name: KeyName)
        requires room { 0 < self.old.ends.known.acked_spare }
        ensures acked { self.new.ends.known.acked ≡ acked_with self.old.ends.known.me self.old.ends.known.acked self.old.ends.known.facts name }
        ensures known { (self.new.ends.known.me ≡ self.old.ends.known.me) × (self.new.ends.known.facts ≡ self.old.ends.known.facts)
            × (self.new.ends.known.facts_spare ≡ self.old.ends.known.facts_spare) }
        ensures marks { (self.new.ends.handed ≡ self.old.ends.handed) × (self.new.ends.handed_spare ≡ self.old.ends.handed_spare)
            × (self.new.closed ≡ self.old.closed) × (self.new.closed_spare ≡ self.old.closed_spare) }
        ensures spare { self.old.ends.known.acked_spare ≤ self.new.ends.known.acked_spare + 1 }
    {
        self.ends.acknowledge(name);
    }

    /// Records that an application has got a key or chunk, unless that is recorded already. It needs only the room
    /// that was reserved.
    pub fn mark(&mut self, name: KeyName, sae: SaeNo)
        requires room { 0 < self.old.ends.handed_spare }
        ensures handed { self.new.ends.handed ≡ marked self.old.ends.handed name sae }
        ensures known { self.new.ends.known ≡ self.old.ends.known }
        ensures closed { (self.new.closed ≡ self.old.closed) × (self.new.closed_spare ≡ self.old.closed_spare) }
        ensures spare { self.old.ends.handed_spare ≤ self.new.ends.handed_spare + 1 }
    {
        tally_handing(&mut self.tallies, &self.ends, name, sae);
        self.ends.mark(name, sae);
    }

    /// Records that an application has closed its end of a stream, unless that is recorded already. It needs only the
    /// room that was reserved.
    pub fn close(&mut self, stream: KeyName, sae: SaeNo)
        requires room { 0 < self.old.closed_spare }
        ensures closed { self.new.closed ≡ marked self.old.closed stream sae }
        ensures ends { self.new.ends ≡ self.old.ends }
        ensures spare { self.old.closed_spare ≤ self.new.closed_spare + 1 }
    {
        self.closed.mark(stream, sae);
    }

    /// Overwrites the bytes of the fact at a place with zeros, if it has bytes. It allocates nothing.
    pub fn forget(&mut self, place: usize)
        ensures facts { self.new.ends.known.facts ≡ forgotten self.old.ends.known.facts place }
        ensures known { (self.new.ends.known.me ≡ self.old.ends.known.me) × (self.new.ends.known.acked ≡ self.old.ends.known.acked)
            × (self.new.ends.known.facts_spare ≡ self.old.ends.known.facts_spare) × (self.new.ends.known.acked_spare ≡ self.old.ends.known.acked_spare) }
        ensures marks { (self.new.ends.handed ≡ self.old.ends.handed) × (self.new.ends.handed_spare ≡ self.old.ends.handed_spare)
            × (self.new.closed ≡ self.old.closed) × (self.new.closed_spare ≡ self.old.closed_spare) }
    {
        self.ends.forget(place);
    }
}
