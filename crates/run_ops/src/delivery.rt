// The outcome of passing a frame to its receiver, and its report.
ghost use Rattle.std.specs.Prelude.{◌≡◌, map};
ghost use Rattle.std.specs.Option.{option_to_list};
ghost use Rattle.run_types.specs.declared.frame_result.FrameResult.{FrameResult as FrameResultValue};
ghost use Rattle.run_types.specs.declared.item.Item.{Item as ItemValue};
ghost use Rattle.run_types.specs.declared.item.Item.TheVariants as items;
ghost use Rattle.run_model.specs.Refusals.{kind_of_octet};
ghost use Rattle.run_model.specs.Outcomes.{heard, frame_items};
ghost use Rattle.net_model.specs.Action.{Replies};
ghost use Rattle.run_ops.specs.Reported.{delivered};

use crate::refusals::refusal_of;
use net_model::Reply;
use qkd_base::{KeyName, Lane};
use run_types::{FrameResult, Item, PayloadKind, Refusal};

/// The outcome of passing a frame to its lane's receiver.
#[derive(Debug, Drop)]
pub enum Delivery {
    /// The receiver's manager replied.
    Replied(Reply),
    /// No frame has that number. The wire has `count` frames.
    NoFrame { count: u64 },
    /// The frame has no such bit. It has `bits` bits.
    NoBit { bits: u32 },
}

// The kind of payload that a kind octet stands for.
fn kind_of_octet(octet: u8) -> Option<PayloadKind>
    ensures { result ≡ kind_of_octet octet }
{
    match octet {
        0 | 1 => Some(PayloadKind::Key),
        2 => Some(PayloadKind::Stored),
        3 => Some(PayloadKind::Ack),
        4 => Some(PayloadKind::Open),
        5 => Some(PayloadKind::Joined),
        6 => Some(PayloadKind::Chunk),
        7 => Some(PayloadKind::Part),
        _ => None,
    }
}

// The result of a frame that the receiver could read: it was new, or known before.
fn heard(fresh: bool, octet: u8, name: KeyName) -> Option<FrameResult>
    ensures { option_to_list result ≡ heard fresh name (kind_of_octet octet) }
{
    let kind = kind_of_octet(octet)?;
    if fresh {
        Some(FrameResult::Taken { kind, name })
    } else {
        Some(FrameResult::Again { kind, name })
    }
}

// The result of a frame by the receiver's reply.
fn replied(reply: &Reply) -> Option<FrameResult>
    ensures { (item : FrameResultValue → ItemValue) → map item (option_to_list result) ≡ frame_items item (Replies reply.now) }
{
    match reply {
        Reply::HeardFact { fresh, kind, name } => heard(*fresh, *kind, *name),
        other => {
            let refusal = refusal_of(other)?;
            Some(FrameResult::Refused(refusal))
        }
    }
}

/// The result of passing a frame to its lane's receiver.
pub fn frame_result(delivery: &Delivery) -> Option<FrameResult>
    ensures { (item : FrameResultValue → ItemValue) → map item (option_to_list result) ≡ frame_items item (delivered delivery.now) }
{
    match delivery {
        Delivery::Replied(reply) => replied(reply),
        Delivery::NoFrame { count } => {
            Some(FrameResult::Refused(Refusal::NoFrame { count: *count }))
        }
        Delivery::NoBit { bits } => Some(FrameResult::Refused(Refusal::NoBit { bits: *bits })),
    }
}

/// The item that reports a frame of a lane's wire that was passed.
pub fn passed_item(lane: Lane, number: u32, delivery: &Delivery) -> Option<Item>
    ensures { option_to_list result ≡ frame_items (items.Passed lane number) (delivered delivery.now) }
{
    let result = frame_result(delivery)?;
    Some(Item::Passed {
        lane,
        number,
        result,
    })
}

/// The item that reports a frame of a lane's wire that was passed with one bit changed.
pub fn flipped_item(lane: Lane, number: u32, bit: u32, delivery: &Delivery) -> Option<Item>
    ensures { option_to_list result ≡ frame_items (items.Flipped lane number bit) (delivered delivery.now) }
{
    let result = frame_result(delivery)?;
    Some(Item::Flipped {
        lane,
        number,
        bit,
        result,
    })
}

/// The item that reports octets that were passed to a receiver and may come from anybody.
pub fn forged_item(lane: Lane, delivery: &Delivery) -> Option<Item>
    ensures { option_to_list result ≡ frame_items (items.Forged lane) (delivered delivery.now) }
{
    let result = frame_result(delivery)?;
    Some(Item::Forged { lane, result })
}
