// The items of a report.
use crate::End;
use crate::frame_result::FrameResult;
use crate::refusal::Refusal;
use crate::start_result::StartResult;
use crate::stream_answer::StreamAnswer;
use crate::unsent_cause::UnsentCause;
use net_model::{Counts4, Held};
use qkd_base::{Items, KeyName, Keys, Lane, LinkNo, NodeNo, Octets};

/// An item: one thing that happened at a line of a scenario.
#[derive(Debug, Drop)]
pub enum Item {
    /// The line was refused.
    Refused(Refusal),
    /// An end of a link took the block of this number.
    Took {
        link: LinkNo,
        end: End,
        number: u32,
    },
    /// An end of a link took no block.
    TookNone {
        link: LinkNo,
        end: End,
        refusal: Refusal,
    },
    /// Keys or chunks were made. The first of them has this name.
    Made {
        count: u16,
        first: KeyName,
    },
    /// A tick of a node sends `fresh` new frames, and repeats `again` earlier ones.
    Ticked {
        node: NodeNo,
        fresh: u32,
        again: u32,
    },
    /// A tick of a node has nothing to send.
    Idle {
        node: NodeNo,
    },
    /// A tick of a node was refused.
    NotTicked {
        node: NodeNo,
        refusal: Refusal,
    },
    /// The received bytes of a lane don't suffice for the next frame: `used` bytes are used, and the frame needs `need`
    /// more.
    Short {
        lane: Lane,
        used: u64,
        need: u64,
        received: u64,
    },
    /// A frame is on a lane's wire under this number. Its payload has `length` octets.
    Sent {
        lane: Lane,
        number: u64,
        offset: u64,
        length: u16,
    },
    /// A lane's wire did not take the frame at this offset.
    Unsent {
        lane: Lane,
        offset: u64,
        cause: UnsentCause,
    },
    /// A frame of a lane's wire came to the lane's receiver.
    Passed {
        lane: Lane,
        number: u32,
        result: FrameResult,
    },
    /// A frame of a lane's wire came to the lane's receiver with one bit changed.
    Flipped {
        lane: Lane,
        number: u32,
        bit: u32,
        result: FrameResult,
    },
    /// Octets that anybody could have made came to a lane's receiver.
    Forged {
        lane: Lane,
        result: FrameResult,
    },
    /// A manager crashed.
    Crashed,
    /// The result of starting a manager.
    Start(StartResult),
    /// A disk was armed with a fault.
    Armed,
    /// A link is up or down from here on.
    LinkSet {
        link: LinkNo,
        up: bool,
    },
    /// Keys with their bytes were handed out.
    Keys(Keys),
    /// This many keys of the default size are ready.
    Ready {
        count: u32,
    },
    /// A request was answered with a status and a body.
    Http {
        node: NodeNo,
        status: u16,
        body: Octets,
    },
    /// A call on streams was answered.
    Stream(StreamAnswer),
    /// What a node holds of a key. There are no bytes if the node no longer needs them.
    Shown {
        node: NodeNo,
        name: KeyName,
        held: Held,
        bytes: Octets,
    },
    /// A node refused to show what it holds of a key.
    NotShown {
        node: NodeNo,
        name: KeyName,
        refusal: Refusal,
    },
    /// The bytes of a lane at its sender, counted.
    Counted {
        lane: Lane,
        counts: Counts4,
    },
    /// The bytes of a lane were not counted.
    NotCounted {
        lane: Lane,
        refusal: Refusal,
    },
}

/// An item with the number of the scenario's line that it belongs to.
#[derive(Debug, Drop)]
pub struct NumberedItem {
    pub number: u32,
    pub item: Item,
}

/// A list of items with their line numbers.
pub type NumberedItems = Items<NumberedItem>;
