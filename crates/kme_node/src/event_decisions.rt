// The decision on each kind of event.
ghost use Rattle.std.specs.Prelude.{◌≡◌, ◌≤◌, ◌^◌, ℕ, List, Bool, [], length, Ok, IfOk, IsErrOf};
ghost use Rattle.declared_site.specs.SiteOf.{site_of};
ghost use Rattle.kme_base.specs.Up.{AreUp};
ghost use Rattle.kme_base.specs.Steps.{IsStep};
ghost use Rattle.net_model.specs.declared.event.Event.TheVariants as events;
ghost use Rattle.net_model.specs.declared.reply.Reply.TheVariants as replies;
ghost use Rattle.net_model.specs.Pools.{pool};
ghost use Rattle.net_model.specs.Decide.{decide, random_need};
ghost use Rattle.net_model.specs.Decision.{Does};
ghost use Rattle.net_model.specs.Relay.{receive};
ghost use Rattle.net_model.specs.Sealing.{Sealing};
ghost use Rattle.kme_node.specs.Holdings.{view, Fits};

use crate::Node;
use kme_base::{Change, Step};
use kme_keys::{GroupPool, dec, enc, enc_group, fill, fill_group, random_need, status};
use kme_relay::{block, heard, ledger, plan};
use kme_streams::{close_stream, feed, get_chunk, join_stream, open_stream};
use net_model::{Event, Payload, Records, Reply};
use qkd_base::{KeyName, Lane, LinkNo, PoolNo, SaeNo};
use std::alloc::Global;

impl Node {
    // Decides on making keys for a pool.
    pub(crate) fn fill(
        &self,
        alloc: Global,
        pool: &PoolNo,
        count: u16,
        random: &[u8],
        up: u32,
    ) -> Result<Step, Reply>
        ensures { (frames : Sealing) (is_up : ℕ → Bool) → AreUp up is_up → IsStep (view self.now) [] (decide (site_of self.now.site) frames is_up (view self.now) random.now (events.Fill pool.now.master pool.now.slave pool.now.bits count)) result }
    {
        fill(alloc, self.site(), up, self.ends(), pool, count, random)
    }

    // Decides on handing ready keys to their master.
    pub(crate) fn enc(&self, alloc: Global, pool: &PoolNo, number: u16) -> Result<Step, Reply>
        ensures { (frames : Sealing) (is_up : ℕ → Bool) (random : List ℕ) → IsStep (view self.now) [] (decide (site_of self.now.site) frames is_up (view self.now) random (events.Enc pool.now.master pool.now.slave number pool.now.bits)) result }
    {
        enc(alloc, self.site(), self.ends(), pool, number)
    }

    // Decides on counting ready keys.
    pub(crate) fn status(&self, alloc: Global, master: SaeNo, slave: SaeNo) -> Result<Step, Reply>
        ensures step { (frames : Sealing) (is_up : ℕ → Bool) (random : List ℕ) → IsStep (view self.now) [] (decide (site_of self.now.site) frames is_up (view self.now) random (events.Status master slave)) result }
        ensures large { IsErrOf result replies.Memory → 2 ^ 32 ≤ length (pool (view self.now) master slave 256) }
    {
        status(alloc, self.site(), self.ends(), master, slave)
    }

    // Decides on opening a stream.
    pub(crate) fn open(
        &self,
        alloc: Global,
        source: SaeNo,
        peer: SaeNo,
        bits: u16,
        up: u32,
    ) -> Result<Step, Reply>
        ensures { (frames : Sealing) (is_up : ℕ → Bool) (random : List ℕ) → AreUp up is_up → IsStep (view self.now) [] (decide (site_of self.now.site) frames is_up (view self.now) random (events.Open source peer bits)) result }
    {
        open_stream(alloc, self.site(), self.streams(), up, source, peer, bits)
    }

    // Decides on joining a stream.
    pub(crate) fn join(
        &self,
        alloc: Global,
        caller: SaeNo,
        other: SaeNo,
        stream: KeyName,
        bits: u16,
    ) -> Result<Step, Reply>
        ensures { (frames : Sealing) (is_up : ℕ → Bool) (random : List ℕ) → IsStep (view self.now) [] (decide (site_of self.now.site) frames is_up (view self.now) random (events.Join caller other stream bits)) result }
    {
        join_stream(
            alloc,
            self.site(),
            self.streams(),
            caller,
            other,
            stream,
            bits,
        )
    }

    // Decides on handing out a chunk.
    pub(crate) fn get(
        &self,
        alloc: Global,
        caller: SaeNo,
        stream: KeyName,
        index: u32,
    ) -> Result<Step, Reply>
        ensures { (frames : Sealing) (is_up : ℕ → Bool) (random : List ℕ) → IsStep (view self.now) [] (decide (site_of self.now.site) frames is_up (view self.now) random (events.Get caller stream index)) result }
    {
        get_chunk(alloc, self.site(), self.streams(), caller, stream, index)
    }

    // Decides on closing an end of a stream.
    pub(crate) fn close(&self, alloc: Global, caller: SaeNo, stream: KeyName) -> Result<Step, Reply>
        ensures { (frames : Sealing) (is_up : ℕ → Bool) (random : List ℕ) → IsStep (view self.now) [] (decide (site_of self.now.site) frames is_up (view self.now) random (events.Close caller stream)) result }
    {
        close_stream(alloc, self.site(), self.streams(), caller, stream)
    }

    // Decides on making chunks for a stream.
    pub(crate) fn feed(
        &self,
        alloc: Global,
        stream: KeyName,
        count: u16,
        random: &[u8],
        up: u32,
    ) -> Result<Step, Reply>
        ensures { (frames : Sealing) (is_up : ℕ → Bool) → AreUp up is_up → IsStep (view self.now) [] (decide (site_of self.now.site) frames is_up (view self.now) random.now (events.Feed stream count)) result }
    {
        feed(
            alloc,
            self.site(),
            self.streams(),
            up,
            stream,
            count,
            random,
        )
    }

    // Decides on the plan of a tick.
    pub(crate) fn plan(&self, alloc: Global, up: u32) -> Result<Step, Reply>
        ensures step { (frames : Sealing) (is_up : ℕ → Bool) (random : List ℕ) → AreUp up is_up → IsStep (view self.now) [] (decide (site_of self.now.site) frames is_up (view self.now) random (events.Plan)) result }

        // Each order is of a known fact, and the orders need only bytes that were received and that no earlier order
        // uses.
        ensures fits { IfOk result (Fits self.now) }
    {
        plan(
            alloc,
            self.site(),
            up,
            self.known(),
            &self.ports,
            self.window(),
            &self.fronts,
        )
    }

    // Decides on showing a name to an operator.
    pub(crate) fn show(&self, alloc: Global, name: KeyName) -> Result<Step, Reply>
        ensures { (frames : Sealing) (is_up : ℕ → Bool) (random : List ℕ) → IsStep (view self.now) [] (decide (site_of self.now.site) frames is_up (view self.now) random (events.Show name)) result }
    {
        match self.kept().show(alloc, name) {
            Err(_) => Err(Reply::Memory),
            Ok(reply) => Ok(Step {
                batch: Records::new(alloc),
                reply,
                change: Change::Same,
            }),
        }
    }

    // Decides on handing named keys to their slave.
    pub(crate) fn dec(
        &self,
        alloc: Global,
        slave: SaeNo,
        master: SaeNo,
        names: &[KeyName],
    ) -> Result<Step, Reply>
        requires few { length names.now ≤ 65535 }
        ensures { (frames : Sealing) (is_up : ℕ → Bool) (random : List ℕ) → IsStep (view self.now) [] (decide (site_of self.now.site) frames is_up (view self.now) random (events.Dec slave master names.now)) result }
    {
        dec(alloc, self.site(), self.ends(), slave, master, names)
    }

    // Decides on making group keys.
    pub(crate) fn fill_group(
        &self,
        alloc: Global,
        pool: &GroupPool,
        count: u16,
        random: &[u8],
        up: u32,
    ) -> Result<Step, Reply>
        requires some { 1 ≤ length pool.now.slaves.now }
        ensures { (frames : Sealing) (is_up : ℕ → Bool) → AreUp up is_up
            → IsStep (view self.now) [] (decide (site_of self.now.site) frames is_up (view self.now) random.now (events.FillGroup pool.now.master pool.now.slaves.now pool.now.bits count)) result }
    {
        fill_group(alloc, self.site(), up, self.ends(), pool, count, random)
    }

    // Decides on handing ready group keys to their master.
    pub(crate) fn enc_group(
        &self,
        alloc: Global,
        pool: &GroupPool,
        number: u16,
    ) -> Result<Step, Reply>
        requires some { 1 ≤ length pool.now.slaves.now }
        ensures { (frames : Sealing) (is_up : ℕ → Bool) (random : List ℕ) → IsStep (view self.now) [] (decide (site_of self.now.site) frames is_up (view self.now) random (events.EncGroup pool.now.master pool.now.slaves.now number pool.now.bits)) result }
    {
        enc_group(alloc, self.site(), self.ends(), pool, number)
    }

    // Decides on taking a link's block.
    pub(crate) fn block(
        &self,
        alloc: Global,
        link: LinkNo,
        number: u32,
        bytes: &[u8],
    ) -> Result<Step, Reply>
        ensures { (frames : Sealing) (is_up : ℕ → Bool) (random : List ℕ) → IsStep (view self.now) [] (decide (site_of self.now.site) frames is_up (view self.now) random (events.Block link number bytes.now)) result }
    {
        block(alloc, self.ports(), link, number, bytes)
    }

    // Decides on counting the bytes of a lane.
    pub(crate) fn ledger(&self, alloc: Global, lane: Lane) -> Step
        ensures { (frames : Sealing) (is_up : ℕ → Bool) (random : List ℕ) → IsStep (view self.now) [] (decide (site_of self.now.site) frames is_up (view self.now) random (events.Ledger lane)) (Ok result) }
    {
        ledger(alloc, self.ports(), lane)
    }

    /// The number of octets that an event draws from the node's entropy.
    pub fn random_need(&self, event: &Event) -> usize
        ensures { result ≡ random_need (view self.now) event.now }
    {
        random_need(self.known(), event)
    }

    /// Decides on the payload of a frame that was received on a lane at an offset and opened. It fails only if memory
    /// runs out.
    pub fn heard(
        &self,
        alloc: Global,
        lane: Lane,
        offset: u64,
        payload: &Payload,
    ) -> Result<Step, Reply>
        ensures step { IsStep (view self.now) [] (Does (receive (site_of self.now.site) (view self.now) lane offset payload.now)) result }

        // The step fits the manager, so it may be applied.
        ensures fits { IfOk result (Fits self.now) }
    {
        heard(alloc, self.site(), self.known(), lane, offset, payload)
    }
}
