// Queries for sent frames, and changes of the frames that a query finds.
ghost use Rattle.std.specs.Prelude.{◌≡◌};
ghost use Rattle.resend_window.specs.Slots.{is_asked, edit};
ghost use Rattle.resend_window.specs.Groups.{query_group};

use crate::catalogue::Group;
use crate::groups::{name_group, offset_group, sent_group};
use crate::held::Held;
use qkd_base::{KeyName, Lane};

/// A query for frames that were sent.
#[derive(Clone, Copy)]
pub enum Query {
    /// The frame at an offset of its lane.
    At(Lane, u64),
    /// The frames on a lane that acknowledge the frame received at an offset of the link's other lane.
    Answering(Lane, u64),
    /// The frames on a lane that carry the fact of this name.
    DataOf(Lane, KeyName),
    /// The frames with facts that were last sent at a tick.
    SentAt(u64),
}

/// A change of a frame.
#[derive(Clone, Copy)]
pub enum Edit {
    /// The frame is due, whatever its age.
    MarkDue,
    /// The frame was sent again at a tick.
    Renew(u64),
    /// The frame has a new number on its wire.
    Renumber(u64),
    /// The frame is old enough to be sent again at the next plan.
    Ripen,
    /// The frame is removed.
    Remove,
}

impl Query {
    /// The index group of the frames that this query finds.
    pub fn group(&self) -> Group
        ensures { result ≡ query_group self.now }
    {
        match self {
            Query::At(lane, offset) => offset_group(0, lane, *offset),
            Query::Answering(lane, offset) => offset_group(1, lane, *offset),
            Query::DataOf(lane, name) => name_group(2, lane, name, 0),
            Query::SentAt(tick) => sent_group(*tick),
        }
    }

    /// Whether the query finds this frame.
    pub fn asks(&self, held: &Held) -> bool
        ensures { result ≡ is_asked self.now held.now }
    {
        match *self {
            Query::At(lane, offset) => held.lane == lane && held.offset == offset,
            Query::Answering(lane, offset) => held.lane == lane && held.ack_of == Some(offset),
            Query::DataOf(lane, name) => {
                held.lane == lane && held.ack_of.is_none() && held.name == name
            }
            Query::SentAt(tick) => held.ack_of.is_none() && held.sent == tick,
        }
    }
}

impl Edit {
    /// The frame after this change, or `None` if the change removes it.
    pub fn of(&self, held: &Held) -> Option<Held>
        ensures { result ≡ edit self.now held.now }
    {
        let mut next = *held;
        match *self {
            Edit::MarkDue => next.due = true,
            Edit::Renew(tick) => {
                next.sent = tick;
                next.due = false;
                next.ripe = false;
            }
            Edit::Renumber(number) => next.number = Some(number),
            Edit::Ripen => next.ripe = true,
            Edit::Remove => return None,
        }
        Some(next)
    }
}
