ghost use Rattle.std.specs.Prelude.{◌≡◌, ◌≢◌, ◌==◌, ℕ, List, length, map, find, OnOk, IfOk};
ghost use Rattle.std.specs.Option.{option_copied, option_map};
ghost use Rattle.net_model.specs.declared.fact.Fact.{Fact};
ghost use Rattle.net_model.specs.Site.{outgoing_lanes};
ghost use Rattle.net_model.specs.World.{needs};
ghost use Rattle.net_model.specs.Fold.{empty_port, with_block, with_lease, on_lane};
ghost use Rattle.declared_site.specs.SiteOf.{IsDeclared, site_of};
ghost use Rattle.kme_base.specs.Steps.{transmission_of_order};
ghost use Rattle.kme_base.specs.Places.{Place, AreEnds, ports_in, with_port, HasRoom, HasRoomIn, HasBytes, HasBytesFor, AreOf, need_within, planned_on, planned_within, restarted, with_planned};

use crate::{LinkEnd, outgoing_lanes};
use declared_site::Site;
use net_model::Order;
use qkd_base::{Lane, LinkNo, Memory, NodeNo};
use std::alloc::Global;
use std::marker::Model;

/// A manager's ends of its links, in order of link.
#[derive(Debug, Drop)]
pub struct Ports {
    ends: Vec<LinkEnd>,
}

impl Model for Ports {
    ghost use Rattle.kme_base.specs.Places.{LinkEnds, AreEnds, ports_in, spares_in};

    ghost Value = { LinkEnds };

    ghost view = { λ p. record { ports = ports_in p.ends.items; spares = spares_in p.ends.items } };

    ghost invariant = { λ p. AreEnds (ports_in p.ends.items) };
}

// The first end that belongs to a link.
fn end_of(ends: &[LinkEnd], link: LinkNo) -> Option<&LinkEnd>
    ensures { option_map (λ (x : Place). x.port) (option_copied result) ≡ find (λ p. p.lane.link == link) (ports_in ends.now) }
{
    for end in ends {
        if end.lane().link == link {
            return Some(end);
        }
    }
    None
}

// Makes room for one more block in each end of a link.
fn room_in(ends: &mut [LinkEnd], link: LinkNo) -> Result<(), Memory>
    ensures ports { ports_in ends.new ≡ ports_in ends.old }
    ensures ok { OnOk result (HasRoomIn ends.new link) }
    ensures kept { (other : ℕ) → HasRoomIn ends.old other → HasRoomIn ends.new other }
{
    for end in ends.iter_mut() {
        end.room_block(link)?;
    }
    Ok(())
}

// Takes a block in each end of its link.
fn take_in(ends: &mut [LinkEnd], link: LinkNo, number: u32, bytes: &[u8; 1024])
    requires { HasRoomIn ends.old link }
    ensures ports { ports_in ends.new ≡ map (with_block link number bytes.now) (ports_in ends.old) }
    ensures rooms { (other : ℕ) → other ≢ link → HasRoomIn ends.old other → HasRoomIn ends.new other }
{
    for end in ends.iter_mut() {
        end.take_block(link, number, bytes);
    }
}

// Raises the end of the leased bytes in each end that the lane leaves.
fn lease_in(ends: &mut [LinkEnd], lane: &Lane, up_to: u64)
    ensures { ends.new ≡ map (with_port (with_lease lane.now up_to)) ends.old }
{
    for end in ends.iter_mut() {
        end.raise_lease(lane, up_to);
    }
}

// Plans more bytes in each end that the lane leaves.
fn plan_in(ends: &mut [LinkEnd], lane: &Lane, bytes: u64)
    ensures { ends.new ≡ map (with_port (planned_within lane.now bytes)) ends.old }
{
    for end in ends.iter_mut() {
        end.plan(lane, bytes);
    }
}

// Plans in each end the bytes that the orders spend.
fn plan_in_each(ends: &mut [LinkEnd], orders: &[Order])
    ensures { ends.new ≡ map (with_port (need_within orders.now)) ends.old }
{
    for end in ends.iter_mut() {
        end.plan_orders(orders);
    }
}

// Starts each end again.
fn restart_in(ends: &mut [LinkEnd])
    ensures { ends.new ≡ map (with_port restarted) ends.old }
{
    for end in ends.iter_mut() {
        end.restart();
    }
}

// An end for each lane, without a block.
fn ends_of(alloc: Global, lanes: &[Lane]) -> Result<Vec<LinkEnd>, Memory>
    ensures { IfOk result (λ ends. ports_in ends.items ≡ map empty_port lanes.now) }
{
    let mut ends = Vec::new(alloc);
    for lane in lanes {
        ends.push(LinkEnd::new(alloc, *lane))?;
    }
    Ok(ends)
}

// A block's bytes as an array of 1,024.
fn as_block(bytes: &[u8]) -> &[u8; 1024]
    requires { length bytes.now ≡ 1024 }
    ensures { result.now ≡ bytes.now }
{
    let (block, _) = bytes.split_first_chunk::<1024>().unwrap();
    block
}

impl Ports {
    /// The ends of a node's links, without a block.
    pub fn new(alloc: Global, site: &Site, me: NodeNo) -> Result<Ports, Memory>
        requires { IsDeclared site.now }
        ensures { IfOk result (λ new. new.ports ≡ map empty_port (outgoing_lanes (site_of site.now) me)) }
    {
        let lanes = outgoing_lanes(alloc, site, me)?;
        Ports::of_lanes(alloc, &lanes)
    }

    /// The ends that these lanes leave, without a block.
    pub fn of_lanes(alloc: Global, lanes: &[Lane]) -> Result<Ports, Memory>
        ensures { IfOk result (λ new. new.ports ≡ map empty_port lanes.now) }
    {
        let ends = ends_of(alloc, lanes)?;
        Ok(Ports { ends })
    }

    /// The ends in order of link.
    pub fn as_slice(&self) -> &[LinkEnd]
        ensures ports { ports_in result.now ≡ self.now.ports }

        // The invariant of the ends.
        ensures ends { AreEnds self.now.ports }
    {
        &self.ends
    }

    /// The end of a link.
    pub fn get(&self, link: LinkNo) -> Option<&LinkEnd>
        ensures { option_map (λ (x : Place). x.port) (option_copied result) ≡ find (λ p. p.lane.link == link) self.now.ports }
    {
        end_of(&self.ends, link)
    }

    /// Makes room for one more block of a link. An `Err` changes nothing but rooms: no room is lost.
    pub fn room_block(&mut self, link: LinkNo) -> Result<(), Memory>
        ensures ports { self.new.ports ≡ self.old.ports }
        ensures ok { OnOk result (HasRoom self.new link) }
        ensures kept { (other : ℕ) → HasRoom self.old other → HasRoom self.new other }
    {
        room_in(&mut self.ends, link)
    }

    /// Takes a link's next block. It changes nothing if the link has no end here, if it has all of its 1,024 blocks, or if the
    /// number isn't the next. With its first block the outgoing lane gets its hash key. It allocates no memory.
    pub fn take_block(&mut self, link: LinkNo, number: u32, bytes: &[u8])
        requires room { HasRoom self.old link }
        requires size { length bytes.now ≡ 1024 }
        ensures ports { self.new.ports ≡ map (with_block link number bytes.now) self.old.ports }
        ensures rooms { (other : ℕ) → other ≢ link → HasRoom self.old other → HasRoom self.new other }
    {
        take_in(&mut self.ends, link, number, as_block(bytes));
    }

    /// Raises the end of the leased bytes of a lane that leaves here. It changes nothing if the lane is leased farther or has
    /// fewer bytes. It allocates no memory.
    pub fn raise_lease(&mut self, lane: Lane, end: u64)
        ensures ports { self.new.ports ≡ map (with_lease lane end) self.old.ports }
        ensures rooms { self.new.spares ≡ self.old.spares }
    {
        lease_in(&mut self.ends, &lane, end);
    }

    /// Plans `bytes` more bytes of a lane that leaves here. It changes nothing if that many bytes weren't received or are
    /// planned already. It allocates no memory.
    pub fn plan(&mut self, lane: Lane, bytes: u64)
        ensures ports { self.new.ports ≡ map (planned_within lane bytes) self.old.ports }
        ensures all { HasBytes lane bytes self.old.ports → self.new.ports ≡ map (planned_on lane bytes) self.old.ports }
        ensures rooms { self.new.spares ≡ self.old.spares }
    {
        plan_in(&mut self.ends, &lane, bytes);
    }

    /// Plans what the orders spend of each lane that leaves here. A lane on which that many bytes weren't received or are
    /// planned already stays unchanged. It allocates no memory.
    pub fn plan_orders(&mut self, orders: &[Order])
        ensures ports { self.new.ports ≡ map (need_within orders.now) self.old.ports }
        ensures all { (facts : List Fact) → AreOf facts orders.now → HasBytesFor orders.now self.old.ports
            → self.new.ports ≡ map (λ p. with_planned (needs facts (on_lane p.lane (map transmission_of_order orders.now))) p) self.old.ports }
        ensures rooms { self.new.spares ≡ self.old.spares }
    {
        plan_in_each(&mut self.ends, orders);
    }

    /// Starts again: each lane that leaves here goes on at the end of its leased bytes. It allocates no memory.
    pub fn restart(&mut self)
        ensures ports { self.new.ports ≡ map restarted self.old.ports }
        ensures rooms { self.new.spares ≡ self.old.spares }
    {
        restart_in(&mut self.ends);
    }
}
