// How the items about links, ticks, frames and lanes are written. Each call adds an item's words to a line.
ghost use Rattle.std.specs.Prelude.{◌≡◌, ◌++◌, ◌∷◌, [], OnOk};
ghost use Rattle.std.specs.Fmt.{decimal};
ghost use lib.Chars.{codes};
ghost use Rattle.run_types.specs.Words.{words, end_text, lane_text, node_text, cause_text, up_text, counts_words};
ghost use Rattle.run_types.specs.Texts.{refusal_text, result_text};

use crate::refusal::{frame_result, refusal};
use crate::words::{cause, end, lane, node, number, up, word};
use net_model::Counts4;
use qkd_base::{Lane, LinkNo, Memory, NodeNo, Octets, Texts};
use run_types::{End, FrameResult, Refusal, UnsentCause};
use std::alloc::Global;

/// An end of a link took a block of bytes.
pub fn took(line: &mut Octets, link: LinkNo, of: End, block: u32) -> Result<(), Memory>
    ensures { OnOk result (line.new ≡ line.old ++ 32 ∷ words (codes "bits" ∷ decimal link ∷ end_text of ∷ decimal block ∷ [])) }
{
    word(line, b"bits")?;
    number(line, u64::from(link.get()))?;
    end(line, of)?;
    number(line, u64::from(block))
}

/// An end of a link took no block, for the given reason.
pub fn took_none(
    alloc: Global,
    line: &mut Octets,
    link: LinkNo,
    of: End,
    why: Refusal,
) -> Result<(), Memory>
    ensures { OnOk result (line.new ≡ line.old ++ 32 ∷ words (codes "bits" ∷ decimal link ∷ end_text of ∷ refusal_text why ∷ [])) }
{
    word(line, b"bits")?;
    number(line, u64::from(link.get()))?;
    end(line, of)?;
    refusal(alloc, line, why)
}

/// A tick sent some frames for the first time, and some again.
pub fn ticked(
    line: &mut Octets,
    nodes: &Texts,
    of: NodeNo,
    fresh: u32,
    again: u32,
) -> Result<(), Memory>
    ensures { OnOk result (line.new ≡ line.old ++ 32 ∷ words (codes "tick" ∷ node_text nodes.now of ∷ codes "new" ∷ decimal fresh ∷ codes "again" ∷ decimal again ∷ [])) }
{
    word(line, b"tick")?;
    node(line, nodes, of)?;
    word(line, b"new")?;
    number(line, u64::from(fresh))?;
    word(line, b"again")?;
    number(line, u64::from(again))
}

/// A node that ticked had nothing to send.
pub fn idle(line: &mut Octets, nodes: &Texts, of: NodeNo) -> Result<(), Memory>
    ensures { OnOk result (line.new ≡ line.old ++ 32 ∷ words (codes "idle" ∷ node_text nodes.now of ∷ [])) }
{
    word(line, b"idle")?;
    node(line, nodes, of)
}

/// A tick was refused, for the given reason.
pub fn not_ticked(
    alloc: Global,
    line: &mut Octets,
    nodes: &Texts,
    of: NodeNo,
    why: Refusal,
) -> Result<(), Memory>
    ensures { OnOk result (line.new ≡ line.old ++ 32 ∷ words (codes "tick" ∷ node_text nodes.now of ∷ refusal_text why ∷ [])) }
{
    word(line, b"tick")?;
    node(line, nodes, of)?;
    refusal(alloc, line, why)
}

/// The bytes that a lane has received don't suffice for its next frame: behind the `used` ones the frame needs `need`.
pub fn short(line: &mut Octets, of: Lane, used: u64, need: u64, received: u64) -> Result<(), Memory>
    ensures { OnOk result (line.new ≡ line.old ++ 32 ∷ words (codes "short" ∷ lane_text of ∷ decimal used ∷ decimal need ∷ decimal received ∷ [])) }
{
    word(line, b"short")?;
    lane(line, of)?;
    number(line, used)?;
    number(line, need)?;
    number(line, received)
}

/// A frame was put on a lane's wire: its number on the wire, its offset in the lane, its payload's length in octets.
pub fn sent(line: &mut Octets, of: Lane, place: u64, offset: u64, size: u16) -> Result<(), Memory>
    ensures { OnOk result (line.new ≡ line.old ++ 32 ∷ words (codes "sent" ∷ lane_text of ∷ decimal place ∷ decimal offset ∷ decimal size ∷ [])) }
{
    word(line, b"sent")?;
    lane(line, of)?;
    number(line, place)?;
    number(line, offset)?;
    number(line, u64::from(size))
}

/// A lane's wire did not take the frame at this offset.
pub fn unsent(line: &mut Octets, of: Lane, offset: u64, why: UnsentCause) -> Result<(), Memory>
    ensures { OnOk result (line.new ≡ line.old ++ 32 ∷ words (codes "unsent" ∷ lane_text of ∷ decimal offset ∷ cause_text why ∷ [])) }
{
    word(line, b"unsent")?;
    lane(line, of)?;
    number(line, offset)?;
    cause(line, why)
}

/// A frame of a lane's wire passed to the lane's receiver, with this result.
pub fn passed(
    alloc: Global,
    line: &mut Octets,
    of: Lane,
    place: u32,
    came: FrameResult,
) -> Result<(), Memory>
    ensures { OnOk result (line.new ≡ line.old ++ 32 ∷ words (codes "pass" ∷ lane_text of ∷ decimal place ∷ result_text came ∷ [])) }
{
    word(line, b"pass")?;
    lane(line, of)?;
    number(line, u64::from(place))?;
    frame_result(alloc, line, came)
}

/// A frame passed to the lane's receiver with one bit changed.
pub fn flipped(
    alloc: Global,
    line: &mut Octets,
    of: Lane,
    place: u32,
    bit: u32,
    came: FrameResult,
) -> Result<(), Memory>
    ensures { OnOk result (line.new ≡ line.old ++ 32 ∷ words (codes "flip" ∷ lane_text of ∷ decimal place ∷ decimal bit ∷ result_text came ∷ [])) }
{
    word(line, b"flip")?;
    lane(line, of)?;
    number(line, u64::from(place))?;
    number(line, u64::from(bit))?;
    frame_result(alloc, line, came)
}

/// Octets that the scenario made up came to a lane's receiver.
pub fn forged(alloc: Global, line: &mut Octets, of: Lane, came: FrameResult) -> Result<(), Memory>
    ensures { OnOk result (line.new ≡ line.old ++ 32 ∷ words (codes "forge" ∷ lane_text of ∷ result_text came ∷ [])) }
{
    word(line, b"forge")?;
    lane(line, of)?;
    frame_result(alloc, line, came)
}

/// A link was set up or down.
pub fn link_set(line: &mut Octets, link: LinkNo, is_up: bool) -> Result<(), Memory>
    ensures { OnOk result (line.new ≡ line.old ++ 32 ∷ words (codes "link" ∷ decimal link ∷ up_text is_up ∷ [])) }
{
    word(line, b"link")?;
    number(line, u64::from(link.get()))?;
    up(line, is_up)
}

// Adds the four counts of a lane.
fn counts(line: &mut Octets, counts: Counts4) -> Result<(), Memory>
    ensures { OnOk result (line.new ≡ line.old ++ 32 ∷ words (counts_words counts)) }
{
    word(line, b"received")?;
    number(line, counts.received)?;
    word(line, b"unused")?;
    number(line, counts.unused)?;
    word(line, b"spent")?;
    number(line, counts.spent)?;
    word(line, b"burnt")?;
    number(line, counts.burnt)
}

/// How many bytes of a lane its sender has received, and how many of these are unused, spent and burnt.
pub fn counted(line: &mut Octets, of: Lane, has: Counts4) -> Result<(), Memory>
    ensures { OnOk result (line.new ≡ line.old ++ 32 ∷ words (codes "ledger" ∷ lane_text of ∷ counts_words has)) }
{
    word(line, b"ledger")?;
    lane(line, of)?;
    counts(line, has)
}

/// The bytes of a lane were not counted, for the given reason.
pub fn not_counted(alloc: Global, line: &mut Octets, of: Lane, why: Refusal) -> Result<(), Memory>
    ensures { OnOk result (line.new ≡ line.old ++ 32 ∷ words (codes "ledger" ∷ lane_text of ∷ refusal_text why ∷ [])) }
{
    word(line, b"ledger")?;
    lane(line, of)?;
    refusal(alloc, line, why)
}
