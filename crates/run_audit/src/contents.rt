// What the passes of a report tell of frames.
ghost use Rattle.std.specs.Prelude.{◌≡◌, List, ◌&&◌, ◌==◌, true, [], ◌∷◌, IfOk, OnOk};
ghost use Rattle.std.specs.List.{cons_option};
ghost use Rattle.std.specs.Option.{option_copied};
ghost use Rattle.run_audit.specs.declared.frames.Frame.{Frame as Sent};
ghost use Rattle.run_audit.specs.declared.contents.Content.{Content as Carried};
ghost use Rattle.run_audit.specs.Table.{at};
ghost use Rattle.run_audit.specs.Contents.{content_of, told_by, content_at, payload_number, is_like};
ghost use Rattle.run_audit.specs.Rules.{carries_one};
ghost use Rattle.run_audit.specs.Kept.{place_key, AreCarried};

use crate::frames::{Frame, place_key};
use crate::table::{Key, find, put};
use qkd_base::{KeyName, Lane, Memory};
use run_types::{FrameResult, Item, PayloadKind};
use std::alloc::Global;
use std::collections::BTreeMap;

/// What a pass tells of the frame at an offset of a lane: the kind of its payload, and the name that this is about.
#[derive(Clone, Copy)]
pub struct Content {
    pub lane: Lane,
    pub offset: u64,
    pub kind: PayloadKind,
    pub name: KeyName,
}

/// The offsets of frames, and what is known of their payloads.
#[derive(Drop)]
pub struct Contents {
    // The offsets of frames, by lane and number.
    offsets: BTreeMap<Key, u64>,
    // What frames carry, by lane and offset.
    known: BTreeMap<Key, Content>,
}

// The number of a kind of payload.
fn payload_number(kind: PayloadKind) -> u8
    ensures { result ≡ payload_number kind }
{
    match kind {
        PayloadKind::Key => 1,
        PayloadKind::Stored => 2,
        PayloadKind::Ack => 3,
        PayloadKind::Open => 4,
        PayloadKind::Joined => 5,
        PayloadKind::Chunk => 6,
        PayloadKind::Part => 7,
    }
}

// Whether two contents have one kind and one name.
fn is_like(content: &Content, other: &Content) -> bool
    ensures { result ≡ is_like content.now other.now }
{
    payload_number(other.kind) == payload_number(content.kind) && other.name == content.name
}

// The kind and the name of a frame that its receiver tells.
fn told_by(outcome: &FrameResult) -> Option<(PayloadKind, KeyName)>
    ensures { result ≡ told_by outcome.now }
{
    match outcome {
        FrameResult::Taken { kind, name } => Some((*kind, *name)),
        FrameResult::Again { kind, name } => Some((*kind, *name)),
        FrameResult::Refused(_) => None,
    }
}

// What a receiver's answer tells of the frame at an offset, if there is one.
fn content_at(lane: &Lane, offset: Option<u64>, outcome: &FrameResult) -> Option<Content>
    ensures { result ≡ content_at lane.now offset outcome.now }
{
    let offset = offset?;
    let (kind, name) = told_by(outcome)?;
    Some(Content {
        lane: *lane,
        offset,
        kind,
        name,
    })
}

impl Contents {
    /// Of no frames. The call allocates nothing.
    pub fn new(alloc: Global) -> Self
        ensures { AreCarried result [] [] }
    {
        Contents {
            offsets: BTreeMap::new(alloc),
            known: BTreeMap::new(alloc),
        }
    }

    // The offset of the frame of a number on a lane's wire.
    fn offset_of(&self, lane: &Lane, number: u32) -> Option<u64>
        ensures { result ≡ at self.now.offsets (place_key lane.now number) }
    {
        find(&self.offsets, place_key(lane, u64::from(number))).copied()
    }

    // What an item tells of a frame that was sent, if it tells anything.
    fn content_of(&self, item: &Item) -> Option<Content>
        ensures { (fs : List Sent) (cs : List Carried) → AreCarried self.now fs cs → result ≡ content_of item.now fs }
    {
        match item {
            Item::Passed {
                lane,
                number,
                result: outcome,
            } => content_at(lane, self.offset_of(lane, *number), outcome),
            _ => None,
        }
    }

    // Whether a content is like what is known of its place.
    fn has_like(&self, content: &Content) -> bool
        ensures { (fs : List Sent) (cs : List Carried) → AreCarried self.now fs cs → result ≡ carries_one (Some content.now) cs }
    {
        match find(&self.known, place_key(&content.lane, content.offset)) {
            Some(known) => is_like(content, known),
            None => true,
        }
    }

    /// Adds what an item tells of a frame, and returns whether it is like all that was told of that frame's place. The only
    /// error is that memory runs out.
    pub fn learn(&mut self, item: &Item) -> Result<bool, Memory>
        ensures { (fs : List Sent) (cs : List Carried) → AreCarried self.old fs cs → IfOk result (λ one. (one ≡ carries_one (content_of item.now fs) cs) × (one ≡ true → AreCarried self.new fs (cons_option (content_of item.now fs) cs))) }
    {
        match self.content_of(item) {
            Some(content) => {
                if !self.has_like(&content) {
                    return Ok(false);
                }
                put(
                    &mut self.known,
                    place_key(&content.lane, content.offset),
                    content,
                )?;
                Ok(true)
            }
            None => Ok(true),
        }
    }

    /// Adds a frame that was sent, if there is one. The only error is that memory runs out.
    pub fn number(&mut self, frame: &Option<Frame>) -> Result<(), Memory>
        ensures { (fs : List Sent) (cs : List Carried) → AreCarried self.old fs cs → OnOk result (AreCarried self.new (cons_option frame.now fs) cs) }
    {
        match frame {
            Some(sent) => put(
                &mut self.offsets,
                place_key(&sent.lane, sent.number),
                sent.offset,
            ),
            None => Ok(()),
        }
    }
}
