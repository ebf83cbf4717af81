// What the items of links, ticks and frames tell.
ghost use Rattle.std.specs.Prelude.{◌≡◌, ◌∷◌, [], OnOk};
ghost use lib.Chars.{codes};
ghost use Rattle.run_types.specs.Words.{end_text, cause_text, up_text};
ghost use Rattle.report_json.specs.Words.{says, counts, refusal_fields};
ghost use Rattle.report_json.specs.Members.{members_in};
ghost use Rattle.report_json.specs.Objects.{put_all, is_a, at_node, on_lane, result_fields};

use crate::object::Object;
use crate::refusal::{frame_result, refusal};
use crate::words::{cause_text, end_text, up_text};
use net_model::Counts4;
use qkd_base::{Lane, LinkNo, Memory, NodeNo, Texts};
use run_types::{End, FrameResult, Refusal, UnsentCause};

// An end of a link, with the kind of the items that tell of it.
fn block_end(object: &mut Object, link: LinkNo, end: End) -> Result<(), Memory>
    ensures { OnOk result (members_in object.new ≡ put_all (members_in object.old) (is_a (codes "bits") ∷ counts (codes "link") link ∷ says (codes "end") (end_text end) ∷ [])) }
{
    object.is_a("bits")?;
    object.counts("link", u64::from(link.get()))?;
    object.says("end", end_text(end))
}

/// An end of a link took a block.
pub(crate) fn took(object: &mut Object, link: LinkNo, end: End, number: u32) -> Result<(), Memory>
    ensures { OnOk result (members_in object.new ≡ put_all (members_in object.old) (is_a (codes "bits") ∷ counts (codes "link") link ∷ says (codes "end") (end_text end) ∷ counts (codes "number") number ∷ [])) }
{
    block_end(object, link, end)?;
    object.counts("number", u64::from(number))
}

/// An end of a link took no block.
pub(crate) fn took_none(
    object: &mut Object,
    link: LinkNo,
    end: End,
    why: Refusal,
) -> Result<(), Memory>
    ensures { OnOk result (members_in object.new ≡ put_all (members_in object.old) (is_a (codes "bits") ∷ counts (codes "link") link ∷ says (codes "end") (end_text end) ∷ refusal_fields why)) }
{
    block_end(object, link, end)?;
    refusal(object, why)
}

// The kind of an item, and its round.
fn in_round(object: &mut Object, word: &str, round: u64) -> Result<(), Memory>
    ensures { OnOk result (members_in object.new ≡ put_all (members_in object.old) (is_a word.now ∷ counts (codes "round") round ∷ [])) }
{
    object.is_a(word)?;
    object.counts("round", round)
}

/// A tick sends new frames, and repeats earlier ones.
pub(crate) fn ticked(
    object: &mut Object,
    nodes: &Texts,
    round: u64,
    node: NodeNo,
    fresh: u32,
    again: u32,
) -> Result<(), Memory>
    ensures { OnOk result (members_in object.new ≡ put_all (members_in object.old) (is_a (codes "tick") ∷ counts (codes "round") round ∷ at_node nodes.now node ∷ counts (codes "new") fresh ∷ counts (codes "again") again ∷ [])) }
{
    in_round(object, "tick", round)?;
    object.at_node(nodes, node)?;
    object.counts("new", u64::from(fresh))?;
    object.counts("again", u64::from(again))
}

/// A tick has nothing to send.
pub(crate) fn idle(object: &mut Object, nodes: &Texts, node: NodeNo) -> Result<(), Memory>
    ensures { OnOk result (members_in object.new ≡ put_all (members_in object.old) (is_a (codes "idle") ∷ at_node nodes.now node ∷ [])) }
{
    object.is_a("idle")?;
    object.at_node(nodes, node)
}

/// A tick was refused.
pub(crate) fn not_ticked(
    object: &mut Object,
    nodes: &Texts,
    round: u64,
    node: NodeNo,
    why: Refusal,
) -> Result<(), Memory>
    ensures { OnOk result (members_in object.new ≡ put_all (members_in object.old) (is_a (codes "tick") ∷ counts (codes "round") round ∷ at_node nodes.now node ∷ refusal_fields why)) }
{
    in_round(object, "tick", round)?;
    object.at_node(nodes, node)?;
    refusal(object, why)
}

// The kind of an item about a lane in a round.
fn on_lane_in_round(object: &mut Object, word: &str, round: u64, lane: Lane) -> Result<(), Memory>
    ensures { OnOk result (members_in object.new ≡ put_all (members_in object.old) (is_a word.now ∷ counts (codes "round") round ∷ on_lane lane [])) }
{
    in_round(object, word, round)?;
    object.on_lane(lane)
}

/// A lane is short of bytes for the next frame.
pub(crate) fn short(
    object: &mut Object,
    round: u64,
    lane: Lane,
    used: u64,
    need: u64,
    received: u64,
) -> Result<(), Memory>
    ensures { OnOk result (members_in object.new ≡ put_all (members_in object.old) (is_a (codes "short") ∷ counts (codes "round") round ∷ on_lane lane (counts (codes "used") used ∷ counts (codes "need") need ∷ counts (codes "received") received ∷ []))) }
{
    on_lane_in_round(object, "short", round, lane)?;
    object.counts("used", used)?;
    object.counts("need", need)?;
    object.counts("received", received)
}

/// A frame is on a lane's wire.
pub(crate) fn sent(
    object: &mut Object,
    round: u64,
    lane: Lane,
    number: u64,
    offset: u64,
    length: u16,
) -> Result<(), Memory>
    ensures { OnOk result (members_in object.new ≡ put_all (members_in object.old) (is_a (codes "sent") ∷ counts (codes "round") round ∷ on_lane lane (counts (codes "number") number ∷ counts (codes "offset") offset ∷ counts (codes "length") length ∷ []))) }
{
    on_lane_in_round(object, "sent", round, lane)?;
    object.counts("number", number)?;
    object.counts("offset", offset)?;
    object.counts("length", u64::from(length))
}

/// A lane's wire did not take a frame.
pub(crate) fn unsent(
    object: &mut Object,
    round: u64,
    lane: Lane,
    offset: u64,
    cause: UnsentCause,
) -> Result<(), Memory>
    ensures { OnOk result (members_in object.new ≡ put_all (members_in object.old) (is_a (codes "unsent") ∷ counts (codes "round") round ∷ on_lane lane (counts (codes "offset") offset ∷ says (codes "cause") (cause_text cause) ∷ []))) }
{
    on_lane_in_round(object, "unsent", round, lane)?;
    object.counts("offset", offset)?;
    object.says("cause", cause_text(cause))
}

/// A frame of a lane's wire came to its receiver.
pub(crate) fn passed(
    object: &mut Object,
    round: u64,
    lane: Lane,
    number: u32,
    came: FrameResult,
) -> Result<(), Memory>
    ensures { OnOk result (members_in object.new ≡ put_all (members_in object.old) (is_a (codes "pass") ∷ counts (codes "round") round ∷ on_lane lane (counts (codes "number") number ∷ result_fields came))) }
{
    on_lane_in_round(object, "pass", round, lane)?;
    object.counts("number", u64::from(number))?;
    frame_result(object, came)
}

/// A frame came to its receiver with one bit changed.
pub(crate) fn flipped(
    object: &mut Object,
    lane: Lane,
    number: u32,
    bit: u32,
    came: FrameResult,
) -> Result<(), Memory>
    ensures { OnOk result (members_in object.new ≡ put_all (members_in object.old) (is_a (codes "flip") ∷ on_lane lane (counts (codes "number") number ∷ counts (codes "bit") bit ∷ result_fields came))) }
{
    object.is_a("flip")?;
    object.on_lane(lane)?;
    object.counts("number", u64::from(number))?;
    object.counts("bit", u64::from(bit))?;
    frame_result(object, came)
}

/// Octets that anybody could have made came to a lane's receiver.
pub(crate) fn forged(object: &mut Object, lane: Lane, came: FrameResult) -> Result<(), Memory>
    ensures { OnOk result (members_in object.new ≡ put_all (members_in object.old) (is_a (codes "forge") ∷ on_lane lane (result_fields came))) }
{
    object.is_a("forge")?;
    object.on_lane(lane)?;
    frame_result(object, came)
}

/// A link is up or down from here on.
pub(crate) fn link_set(object: &mut Object, link: LinkNo, up: bool) -> Result<(), Memory>
    ensures { OnOk result (members_in object.new ≡ put_all (members_in object.old) (is_a (codes "link") ∷ counts (codes "link") link ∷ says (codes "state") (up_text up) ∷ [])) }
{
    object.is_a("link")?;
    object.counts("link", u64::from(link.get()))?;
    object.says("state", up_text(up))
}

/// The bytes of a lane, counted.
pub(crate) fn counted(object: &mut Object, lane: Lane, bytes: Counts4) -> Result<(), Memory>
    ensures { OnOk result (members_in object.new ≡ put_all (members_in object.old) (is_a (codes "ledger") ∷ on_lane lane (counts (codes "received") bytes.received ∷ counts (codes "unused") bytes.unused ∷ counts (codes "spent") bytes.spent ∷ counts (codes "burnt") bytes.burnt ∷ []))) }
{
    object.is_a("ledger")?;
    object.on_lane(lane)?;
    object.counts("received", bytes.received)?;
    object.counts("unused", bytes.unused)?;
    object.counts("spent", bytes.spent)?;
    object.counts("burnt", bytes.burnt)
}

/// The bytes of a lane were not counted.
pub(crate) fn not_counted(object: &mut Object, lane: Lane, why: Refusal) -> Result<(), Memory>
    ensures { OnOk result (members_in object.new ≡ put_all (members_in object.old) (is_a (codes "ledger") ∷ on_lane lane (refusal_fields why))) }
{
    object.is_a("ledger")?;
    object.on_lane(lane)?;
    refusal(object, why)
}
