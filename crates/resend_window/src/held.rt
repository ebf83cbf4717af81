// Frames that were sent and may be sent again.
ghost use Rattle.std.specs.Prelude.{◌≡◌, ℕ, ◌+◌, ◌-◌, ◌<◌, ◌≤◌, ◌^◌, ◌&&◌, ◌++◌, take, drop, replicate, length};
ghost use Rattle.qkd_base.specs.Lane.{reverse_lane, lane_eq};
ghost use Rattle.net_model.specs.Window.{entry_of, repeat_of};
ghost use Rattle.resend_window.specs.Held.{entry_at, is_next_on, is_ready, IsHeld};
ghost use Rattle.resend_window.specs.Groups.{offset_group, item_group};

use crate::catalogue::Group;
use crate::groups::{name_group, offset_group};
use net_model::{Placing, Repeat};
use qkd_base::{FrameOctets, KeyName, Lane, Way};

/// A frame that was sent: its lane and offset, what it carries, when it was last sent, and its octets.
#[derive(Clone, Copy)]
pub struct Held {
    pub lane: Lane,
    pub offset: u64,
    pub name: KeyName,
    /// The offset of the frame that is acknowledged, or `None` if this frame carries a fact.
    pub ack_of: Option<u64>,
    pub number: Option<u64>,
    /// The tick at which the frame was last sent.
    pub sent: u64,
    /// Whether the frame is due, whatever its age.
    pub due: bool,
    /// Whether the frame is old enough to be sent again at the next plan.
    pub ripe: bool,
    pub length: u16,
    pub frame: FrameOctets,
}

impl Held {
    /// The index group of this lane and offset.
    pub fn place_group(&self) -> Group
        ensures { result ≡ offset_group 0 self.now.lane self.now.offset }
    {
        offset_group(0, &self.lane, self.offset)
    }

    /// The index group of what the frame carries.
    pub fn item_group(&self) -> Group
        ensures { result ≡ item_group self.now.lane self.now.name self.now.ack_of }
    {
        match self.ack_of {
            None => name_group(2, &self.lane, &self.name, 0),
            Some(offset) => offset_group(1, &self.lane, offset),
        }
    }

    /// Whether the frame is sent again at the next plan.
    pub fn is_ready(&self) -> bool
        ensures { result ≡ is_ready self.now }
    {
        self.due || self.ripe
    }

    /// The order to send this frame again.
    pub fn repeat(&self) -> Repeat
        ensures { (tick now : ℕ) → IsHeld now self.now → result ≡ repeat_of (entry_at tick self.now) }
    {
        Repeat {
            lane: self.lane,
            offset: self.offset,
            number: self.number,
            name: self.name,
            ack_of: self.ack_of,
            length: self.length,
            frame: self.frame,
        }
    }
}

/// The other lane of a link.
pub fn reversed(lane: Lane) -> Lane
    ensures { result ≡ reverse_lane lane }
{
    let way = match lane.way {
        Way::Up => Way::Down,
        Way::Down => Way::Up,
    };
    Lane {
        link: lane.link,
        way,
    }
}

/// Whether the frame is sent again on this lane at the tick after `tick`.
pub fn is_next_on(held: &Held, tick: u64, lane: Lane) -> bool
    requires room { tick + 1 < 2 ^ 64 }
    requires sent { held.now.sent ≤ tick }
    ensures { result ≡ is_next_on (tick + 1) lane held.now }
{
    held.lane == lane && (held.due || held.ack_of.is_none() && 4 <= tick + 1 - held.sent)
}

// Writes the octets over the first ones of `room`.
fn write_front(room: &mut [u8], octets: &[u8])
    requires { length octets.now ≤ length room.old }
    ensures { room.new ≡ octets.now ++ drop (length octets.now) room.old }
{
    room[..octets.len()].copy_from_slice(octets);
}

// The first `size` octets of a frame, followed by zeros.
fn cleaned(frame: &FrameOctets, size: u16) -> FrameOctets
    requires { size ≤ 600 }
    ensures octets { result.octets ≡ take size frame.now.octets ++ replicate (600 - size) 0 }

    // A frame always has room for 600 octets.
    ensures room { length frame.now.octets ≡ 600 }
{
    let mut room = FrameOctets::new();
    write_front(&mut room.octets, &frame.octets[..size as usize]);
    room
}

// The offset of a placing.
fn offset_of(placing: &Placing) -> u64
    ensures value { result ≡ placing.now.offset }

    // An offset always fits in 64 bits.
    ensures fits { placing.now.offset < 2 ^ 64 }
{
    placing.offset
}

/// The sent frame that an order's placing at this tick describes.
pub fn held_of(placing: &Placing, tick: u64) -> Held
    ensures entry { entry_at tick result ≡ entry_of placing.now }
    ensures held { IsHeld tick result }
    ensures place { (result.lane ≡ placing.now.lane) × (result.offset ≡ placing.now.offset) }
{
    let length = if placing.length <= 600 {
        placing.length
    } else {
        600
    };
    Held {
        lane: placing.lane,
        offset: offset_of(placing),
        name: placing.name,
        ack_of: placing.ack_of,
        number: placing.number,
        sent: tick,
        due: placing.number.is_none(),
        ripe: false,
        length,
        frame: cleaned(&placing.frame, length),
    }
}
