// A manager with its disk.
ghost use Rattle.std.specs.Prelude.{◌≡◌, ◌<◌, ◌≤◌, ◌^◌, ◌+◌, ◌*◌, ◌&&◌, nat_le, ℕ, Bool, IsTrue, IfOk, length, take, drop, true, false};
ghost use Rattle.declared_site.specs.SiteOf.{site_of};
ghost use Rattle.net_model.specs.Events.{is_valid_event};
ghost use Rattle.journal_snapshot.specs.Standing.{IsKept};
ghost use Rattle.kme_base.specs.Up.{AreUp};
ghost use Rattle.kme_node.specs.Holdings.{view};
ghost use Rattle.net_model.specs.View.{port_of, blocks_of, incoming_octets};
ghost use Rattle.hop_frames.specs.Opening.{open_of};
ghost use Rattle.kme_journal.specs.Frames.{is_match};
ghost use Rattle.kme_store.specs.Manager.{Acts, HasDisk, WhereUp, WhereDown, IsToldBy, IsArmed, StandsOver, is_up, lease_of, length_in};

use crate::Standing;
use crate::event_handler::handle;
use crate::lanes::copy_block;
use disk_model::{Arm, Disk};
use journal_snapshot::Snapshots;
use kme_journal::matches;
use kme_node::Node;
use net_model::{Event, Reply};
use qkd_base::{Lane, LinkNo, Memory};
use source_devices::Entropy;
use std::alloc::Global;
use std::marker::Model;
use std::mem;

/// One key manager (KME) with its disk and its entropy.
#[derive(Drop)]
pub struct Manager<K: Disk, E: Entropy> {
    alloc: Global,
    node: Node,
    standing: Standing<K>,
    entropy: E,
}

impl<K: Disk, E: Entropy> Model for Manager<K, E> {
    ghost use Rattle.std.specs.Prelude.{◌≤◌};
    ghost use Rattle.std.specs.Coded.{codes};
    ghost use Rattle.sae_entitlements.specs.Grants.{grants_code};
    ghost use Rattle.kme_node.specs.Holdings.{view as seen_by};
    ghost use Rattle.kme_store.specs.Manager.{ManagerForm, IsToldBy, WhereDown};

    ghost Value = { ManagerForm K E };

    ghost view = { λ m. record { site = m.node.site; view = seen_by m.node; standing = m.standing; entropy = m.entropy } };

    ghost coded = { Prim.hlevel (codes, grants_code) };

    ghost invariant = { λ m. IsToldBy m.node.site (seen_by m.node) m.standing × WhereDown (λ disk. (K.allowance disk).used ≤ 12) m.standing };
}

impl<K: Disk + Drop, E: Entropy> Manager<K, E> {
    /// A manager that is up. Replaying the journal must give this manager.
    pub fn new(alloc: Global, node: Node, journal: Snapshots<K>, entropy: E) -> Self
        requires told { IsToldBy node.site (view node) (Standing.Up journal) }
        ensures { result ≡ record { site = node.site; view = view node; standing = Standing.Up journal; entropy = entropy } }
    {
        Manager {
            alloc,
            node,
            standing: Standing::Up(journal),
            entropy,
        }
    }

    /// It does nothing. Its contract has the invariant: while the manager is up, an honest disk has exactly the
    /// journal's batches, a crash leaves nothing else, and replaying the batches gives this manager.
    pub fn stands(&self)
        ensures told { IsToldBy self.now.site self.now.view self.now.standing }
        ensures kept { WhereUp (λ j. IsTrue (K.is_honest j.disk) → IsKept j.live j.batches (K.content j.disk) (K.image j.disk (K.moment j.disk))) self.now.standing }
        ensures used { WhereDown (λ disk. (K.allowance disk).used ≤ 12) self.now.standing }
    {
        match &self.standing {
            Standing::Up(journal) => journal.stands(),
            Standing::Down(_) => {}
            Standing::Between => {}
        }
    }

    /// Handles an event, and answers once all durable changes are on the disk. Bit l of `up` says that link l is up.
    /// A manager that is down stays down.
    pub fn act(&mut self, event: &Event, up: u32) -> Reply
        requires { is_valid_event (site_of self.old.site) self.old.view.me event.now ≡ true }
        ensures site { self.new.site ≡ self.old.site }
        ensures acts { (linked : ℕ → Bool) → AreUp up linked
            → Acts K.Disk E.Entropy linked event.now self.old self.old.standing self.new result }

        // While the manager is up, an honest disk has exactly the journal's batches, and a crash leaves nothing else.
        ensures kept { WhereUp (λ j. IsTrue (K.is_honest j.disk) → IsKept j.live j.batches (K.content j.disk) (K.image j.disk (K.moment j.disk))) self.new.standing }
        ensures same { HasDisk (λ before. HasDisk (λ disk. (K.is_honest disk ≡ K.is_honest before) × (K.armings disk ≡ K.armings before)) self.new.standing) self.old.standing }
        ensures later { HasDisk (λ before. HasDisk (λ disk. K.faults before ≤ K.faults disk) self.new.standing) self.old.standing }
        ensures drawn_later { E.faults self.old.entropy ≤ E.faults self.new.entropy }
    {
        match mem::replace(&mut self.standing, Standing::Between) {
            Standing::Between => Reply::Down,
            Standing::Down(disk) => {
                self.standing = Standing::Down(disk);
                Reply::Down
            }
            Standing::Up(journal) => {
                let (standing, reply) = handle(
                    self.alloc,
                    &mut self.node,
                    journal,
                    &mut self.entropy,
                    event,
                    up,
                );
                self.standing = standing;
                reply
            }
        }
    }

    /// Arms the manager's disk with a fault.
    pub fn arm(&mut self, arm: Arm)
        requires { HasDisk (λ disk. (K.armings disk).count < 2 ^ 32) self.old.standing }
        ensures same { self.new ≡ record self.old { standing = self.new.standing } }
        ensures armed { StandsOver (IsArmed K.Disk arm) self.old.standing self.new.standing }
    {
        match &mut self.standing {
            Standing::Up(journal) => journal.arm(arm),
            Standing::Down(disk) => disk.arm(arm),
            Standing::Between => {}
        }
    }

    /// Whether the manager is up.
    pub fn is_up(&self) -> bool
        ensures { result ≡ is_up self.now.standing }
    {
        match &self.standing {
            Standing::Up(_) => true,
            Standing::Down(_) => false,
            Standing::Between => false,
        }
    }

    /// Crashes the manager and gives its disk and its entropy back. All that isn't on the disk is lost.
    pub fn crash(self) -> (K, E)
        ensures disk { HasDisk (λ disk. result.0 ≡ disk) self.standing }
        ensures entropy { result.1 ≡ self.entropy }
        ensures kept { WhereUp (λ j. IsTrue (K.is_honest result.0) → IsKept j.live j.batches (K.content result.0) (K.image result.0 (K.moment result.0))) self.standing }
        ensures used { (K.allowance result.0).used ≤ 12 }
    {
        let Manager {
            standing,
            entropy,
            ..
        } = self;
        match standing {
            Standing::Up(journal) => (journal.into_disk(), entropy),
            Standing::Down(disk) => (disk, entropy),
            Standing::Between => unreachable!(),
        }
    }

    /// The number of blocks of a link that the manager took, 0 if it has no end of the link.
    pub fn blocks(&self, link: LinkNo) -> u32
        ensures { result ≡ blocks_of (port_of self.now.view link) }
    {
        match self.node.ports().get(link) {
            None => 0,
            Some(end) => end.blocks(),
        }
    }

    /// Copies a block of a lane of a link, counted from 0. False, with `into` unchanged, if the manager hasn't
    /// received the block.
    pub fn lane_block(&self, lane: Lane, number: u64, into: &mut [u8; 1024]) -> bool
        ensures has { result ≡ nat_le (1024 * number + 1024) (length (incoming_octets lane (port_of self.now.view lane.link))) }
        ensures block { result ≡ true → into.new ≡ take 1024 (drop (1024 * number) (incoming_octets lane (port_of self.now.view lane.link))) }
        ensures none { result ≡ false → into.new ≡ into.old }
    {
        match self.node.ports().get(lane.link) {
            None => false,
            Some(end) => copy_block(end.segments(), lane.way, number, into),
        }
    }

    /// The end of a lane's lease: bytes below it may be used. 0 if the manager has no end of the lane's link.
    pub fn lease(&self, lane: Lane) -> u64
        ensures { result ≡ lease_of (port_of self.now.view lane.link) }
    {
        match self.node.ports().get(lane.link) {
            None => 0,
            Some(end) => end.lease(),
        }
    }

    /// The length of the journal in octets, 0 if the manager is down.
    pub fn journal_length(&self) -> u64
        ensures { result ≡ length_in self.now.standing }
    {
        match &self.standing {
            Standing::Up(journal) => journal.length(),
            Standing::Down(_) => 0,
            Standing::Between => 0,
        }
    }

    /// Whether octets that are received on a lane have a valid tag and the manager is up, so that it would take them
    /// for a frame.
    pub fn would_match(&self, lane: Lane, frame: &[u8]) -> Result<bool, Memory>
        ensures { IfOk result (λ does. does ≡ (is_up self.now.standing && is_match (open_of lane (incoming_octets lane (port_of self.now.view lane.link)) frame.now))) }
    {
        if !self.is_up() {
            return Ok(false);
        }
        matches(self.alloc, &self.node, lane, frame)
    }
}
