// The facts that a manager keeps.
ghost use Rattle.std.specs.Prelude.{◌≡◌, ◌+◌, ℕ, [], length, slice_get, IfOk, OnOk};
ghost use Rattle.net_model.specs.View.{View};
ghost use Rattle.net_model.specs.Fold.{view_batch};
ghost use Rattle.net_model.specs.Show.{show};
ghost use Rattle.stream_core.specs.Kept.{Sees};
ghost use Rattle.kme_facts.specs.Needs.{kept_view, needs_at, IsMasked};
ghost use Rattle.kme_facts.specs.Taken.{HasRoom};

use crate::needs::needs_at;
use crate::record_effects::take_all;
use crate::show::show;
use crate::wiped_bytes::let_go;
use net_model::{Records, Reply};
use qkd_base::{KeyName, Memory, NodeNo};
use std::alloc::Global;
use std::marker::Model;
use stream_core::Streams;

/// What a manager keeps of facts and applications: facts, acknowledgements, pairs of a key and the application that
/// got it, and closed ends of streams. The bytes of a fact that its node no longer needs are zeros.
#[derive(Drop)]
pub struct Kept {
    streams: Streams,
}

impl Model for Kept {
    ghost use Rattle.stream_core.specs.Kept.{StreamEnds};
    ghost use Rattle.kme_facts.specs.Needs.{IsMasked};

    ghost Value = { StreamEnds };

    ghost view = { λ k. k.streams };

    ghost invariant = { λ k. IsMasked k.streams };
}

impl Kept {
    /// The state of a node that knows nothing. It allocates nothing.
    pub fn new(alloc: Global, me: NodeNo) -> Self
        ensures known { (result.ends.known.me ≡ me) × (result.ends.known.facts ≡ []) × (result.ends.known.acked ≡ []) }
        ensures marks { (result.ends.handed ≡ []) × (result.closed ≡ []) }
    {
        Kept {
            streams: Streams::new(alloc, me),
        }
    }

    /// The state, for look-ups.
    pub fn streams(&self) -> &Streams
        ensures streams { result.now ≡ self.now }

        // Bytes that aren't needed are always zeros.
        ensures masked { IsMasked self.now }
    {
        &self.streams
    }

    /// Whether the node needs the bytes of the fact at a place.
    pub fn is_needed(&self, place: usize) -> bool
        ensures { (v : View) → Sees v self.now → result ≡ needs_at v (slice_get self.now.ends.known.facts place) }
    {
        needs_at(self.streams.ends(), place)
    }

    /// What the node shows an operator of a name: the state of its key, and the key's bytes if the node still needs
    /// them.
    pub fn show(&self, alloc: Global, name: KeyName) -> Result<Reply, Memory>
        ensures { (v : View) → Sees v self.now → IfOk result (λ reply. reply ≡ show v name) }
    {
        show(alloc, self.streams.ends(), name)
    }

    /// Reserves memory for `more` further records. An `Err` changes nothing but reserved memory.
    pub fn room(&mut self, more: u32) -> Result<(), Memory>
        ensures kept { kept_view self.new ≡ kept_view self.old }
        ensures ok { OnOk result (HasRoom self.new more) }
    {
        self.streams.room(more)?;
        self.streams.room_acked(more)?;
        self.streams.room_handed(more)?;
        self.streams.room_closed(more)?;
        Ok(())
    }

    /// Applies a batch: its records in order, and then all bytes that are no longer needed become zeros. It allocates
    /// nothing.
    pub fn apply(&mut self, records: Records)
        requires room { HasRoom self.old (length records) }
        ensures seen { (v : View) → Sees v self.old → Sees (view_batch v records) self.new }
        ensures left { (n : ℕ) → HasRoom self.old (n + length records) → HasRoom self.new n }
    {
        let facts = self.streams.ends().known().len();
        let acked = self.streams.ends().known().acked().len();
        let handed = self.streams.ends().handed().len();
        take_all(&mut self.streams, records);
        let_go(&mut self.streams, facts, acked, handed);
    }
}
