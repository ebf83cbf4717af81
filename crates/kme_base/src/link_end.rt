ghost use Rattle.std.specs.Prelude.{◌≡◌, ◌≢◌, ◌+◌, ◌≤◌, ◌<◌, true, length, OnOk, OnErr};
ghost use Rattle.qkd_base.specs.Lane.{lane_eq};
ghost use Rattle.net_model.specs.View.{received_of};
ghost use Rattle.net_model.specs.Fold.{empty_port, with_block, with_lease};
ghost use Rattle.net_model.specs.Records.{keyed_lease};
ghost use Rattle.kme_base.specs.Places.{need_within, planned_within};

use crate::needs::left_behind;
use link_segments::Segments;
use net_model::Order;
use qkd_base::{Lane, LinkNo, Memory, Way};
use std::alloc::Global;
use std::marker::Model;

/// A manager's end of one link. Of its outgoing lane, the bytes below `lease` may be claimed. The bytes below `planned` are
/// claimed or ordered. The bytes below `recovered` were leased at the last start, so the lane goes on behind them. These are
/// only numbers: the lane's ledger hands out the bytes.
#[derive(Debug, Drop)]
pub struct LinkEnd {
    lane: Lane,
    segments: Segments,
    lease: u64,
    planned: u64,
    recovered: u64,
}

impl Model for LinkEnd {
    ghost use Rattle.kme_base.specs.Places.{Place, IsEnd};

    ghost Value = { Place };

    ghost view = { λ e. record { port = record { lane = e.lane; blocks = e.segments.blocks; lease = e.lease; planned = e.planned; recovered = e.recovered }; spare = e.segments.spare } };

    ghost invariant = { λ e. IsEnd (record { lane = e.lane; blocks = e.segments.blocks; lease = e.lease; planned = e.planned; recovered = e.recovered }) };
}

// Whether two lanes are the same.
fn is_same(lane: &Lane, other: &Lane) -> bool
    ensures { result ≡ lane_eq lane.now other.now }
{
    lane == other
}

// The lease after the lane's first bytes came: the 8 bytes of the hash key are claimed at once.
fn keyed(before: u64, after: u64, end: u64) -> u64
    ensures { result ≡ keyed_lease before after end }
{
    if before == 0 && 0 < after { 8 } else { end }
}

impl LinkEnd {
    /// An end without blocks. It allocates no memory.
    pub(crate) fn new(alloc: Global, lane: Lane) -> Self
        ensures { result.port ≡ empty_port lane }
    {
        LinkEnd {
            lane,
            segments: Segments::new(alloc),
            lease: 0,
            planned: 0,
            recovered: 0,
        }
    }

    /// The outgoing lane.
    pub fn lane(&self) -> Lane
        ensures { result ≡ self.now.port.lane }
    {
        self.lane
    }

    /// The blocks received, as the bytes of both lanes.
    pub fn segments(&self) -> &Segments
        ensures { result.now.blocks ≡ self.now.port.blocks }
    {
        &self.segments
    }

    /// How many blocks were received, at most 1,024.
    pub fn blocks(&self) -> u32
        ensures number { result ≡ length self.now.port.blocks }
        ensures bound { result ≤ 1024 }
    {
        let bytes = self.segments.received(Way::Up) + self.segments.received(Way::Down);
        (bytes / 1024) as u32
    }

    /// How many bytes of the outgoing lane were received, at most 524,288.
    pub fn received(&self) -> u64
        ensures number { result ≡ received_of self.now.port }
        ensures bound { result ≤ 524288 }
    {
        self.segments.received(self.lane.way)
    }

    /// The end of the leased bytes: at most the bytes received.
    pub fn lease(&self) -> u64
        ensures number { result ≡ self.now.port.lease }
        ensures bound { result ≤ received_of self.now.port }
    {
        self.lease
    }

    /// The end of the planned bytes: at most the bytes received.
    pub fn planned(&self) -> u64
        ensures number { result ≡ self.now.port.planned }
        ensures bound { result ≤ received_of self.now.port }
    {
        self.planned
    }

    /// The end of the leased bytes at the last start.
    pub fn recovered(&self) -> u64
        ensures number { result ≡ self.now.port.recovered }
        ensures bound { result ≤ self.now.port.lease }
    {
        self.recovered
    }

    // How many bytes were received and are not planned yet.
    fn unplanned(&self) -> u64
        ensures number { result + self.now.port.planned ≡ received_of self.now.port }
        ensures bound { result ≤ 524288 }
    {
        self.received() - self.planned
    }

    /// Makes room for one more block, if this is an end of that link. An `Err` changes nothing.
    pub(crate) fn room_block(&mut self, link: LinkNo) -> Result<(), Memory>
        ensures port { self.new.port ≡ self.old.port }
        ensures ok { OnOk result (self.old.port.lane.link ≡ link → 0 < self.new.spare) }
        ensures kept { self.old.port.lane.link ≢ link → self.new.spare ≡ self.old.spare }
        ensures err { OnErr result (self.new ≡ self.old) }
    {
        if self.lane.link != link {
            return Ok(());
        }
        self.segments.room(1)
    }

    /// Takes the link's next block, if this is an end of that link and the number is the next one.
    pub(crate) fn take_block(&mut self, link: LinkNo, number: u32, bytes: &[u8; 1024])
        requires { self.old.port.lane.link ≡ link → 0 < self.old.spare }
        ensures port { self.new.port ≡ with_block link number bytes.now self.old.port }
        ensures spare { self.old.port.lane.link ≢ link → self.new.spare ≡ self.old.spare }
    {
        if self.lane.link != link {
            return;
        }
        let before = self.segments.received(self.lane.way);
        match self.segments.take_block(number, bytes) {
            Ok(()) => {
                let after = self.segments.received(self.lane.way);
                self.lease = keyed(before, after, self.lease);
                self.planned = keyed(before, after, self.planned);
            }
            Err(_) => {}
        }
    }

    /// Raises the end of the leased bytes, if this lane leaves here, is leased less far, and has that many bytes.
    pub(crate) fn raise_lease(&mut self, lane: &Lane, end: u64)
        ensures port { self.new.port ≡ with_lease lane.now end self.old.port }
        ensures spare { self.new.spare ≡ self.old.spare }
    {
        if is_same(&self.lane, lane) && self.lease <= end && end <= self.received() {
            self.lease = end;
        }
    }

    /// Plans `bytes` more bytes of a lane, if the lane leaves here and has that many received bytes that are not planned yet.
    pub(crate) fn plan(&mut self, lane: &Lane, bytes: u64)
        ensures port { self.new.port ≡ planned_within lane.now bytes self.old.port }
        ensures spare { self.new.spare ≡ self.old.spare }
    {
        if is_same(&self.lane, lane) && bytes <= self.unplanned() {
            self.planned += bytes;
        }
    }

    /// Plans the bytes that the orders spend of the outgoing lane, if that many were received and are not planned yet.
    pub(crate) fn plan_orders(&mut self, orders: &[Order])
        ensures port { self.new.port ≡ need_within orders.now self.old.port }
        ensures spare { self.new.spare ≡ self.old.spare }
    {
        let unplanned = self.unplanned();
        match left_behind(&self.lane, orders, unplanned) {
            None => {}
            Some(left) => self.planned += unplanned - left,
        }
    }

    /// Starts again: gives up all bytes below the end of the leased ones.
    pub(crate) fn restart(&mut self)
        ensures port { self.new.port ≡ record (self.old.port) { planned = self.old.port.lease; recovered = self.old.port.lease } }
        ensures spare { self.new.spare ≡ self.old.spare }
    {
        self.planned = self.lease;
        self.recovered = self.lease;
    }
}
