// The notes of a sender on a frame that was put on a wire or refused.
ghost use Rattle.std.specs.Prelude.{◌≡◌};
ghost use Rattle.net_model.specs.Table.{name_of};
ghost use Rattle.net_model.specs.Item.{item_name};
ghost use Rattle.net_model.specs.Tick.{item_in};
ghost use Rattle.world_nodes.specs.Emitting.{offset_of, length_of, frame_of, order_placing, repeat_placing};

use lane_sender::Sent;
use net_model::{Fact, Order, Payload, Placing, Repeat};
use qkd_base::{FrameOctets, KeyName};

fn fact_name(fact: &Fact) -> KeyName
    ensures { result ≡ name_of fact.now }
{
    match fact {
        Fact::Key { name, .. } => *name,
        Fact::Chunk { name, .. } => *name,
        Fact::Stored { note, .. } => *note,
        Fact::Open { stream, .. } => *stream,
        Fact::Joined { note, .. } => *note,
        Fact::Part { name, .. } => *name,
    }
}

fn payload_name(payload: &Payload) -> KeyName
    ensures { result ≡ item_name (item_in payload.now) }
{
    match payload {
        Payload::Data(fact) => fact_name(fact),
        Payload::Ack(name) => *name,
    }
}

// The offset, the length and the octets of a frame; the octets are in a buffer of fixed size.
fn parts(sent: &Sent) -> (u64, u16, FrameOctets)
    ensures { result ≡ (offset_of sent.now, length_of sent.now, frame_of sent.now) }
{
    match sent {
        Sent::Placed {
            offset,
            length,
            frame,
            ..
        } => (*offset, *length, *frame),
        Sent::Unsent {
            offset,
            length,
            frame,
            ..
        } => (*offset, *length, *frame),
    }
}

/// The note on the frame of an order.
pub fn order_placing(order: &Order, sent: &Sent) -> Placing
    ensures { result ≡ order_placing order.now sent.now }
{
    let (offset, length, frame) = parts(sent);
    Placing {
        lane: order.lane,
        offset,
        name: payload_name(&order.payload),
        ack_of: order.ack_of,
        fresh: true,
        number: sent.number(),
        length,
        frame,
    }
}

/// The note on the frame of a repeat.
pub fn repeat_placing(repeat: &Repeat, sent: &Sent) -> Placing
    ensures { result ≡ repeat_placing repeat.now sent.now }
{
    let (offset, length, frame) = parts(sent);
    Placing {
        lane: repeat.lane,
        offset,
        name: repeat.name,
        ack_of: repeat.ack_of,
        fresh: false,
        number: sent.number(),
        length,
        frame,
    }
}
