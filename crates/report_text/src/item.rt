// How an item of a report is written.
ghost use Rattle.std.specs.Prelude.{◌≡◌, ◌++◌, ◌∷◌, OnOk};
ghost use Rattle.run_types.specs.Texts.{item_text};

use crate::answer::answer;
use crate::frame_items::{
    counted, flipped, forged, idle, link_set, not_counted, not_ticked, passed, sent, short, ticked,
    took, took_none, unsent,
};
use crate::key_items::{http, keys, made, not_shown, ready, shown};
use crate::refusal::{refusal, start_result};
use crate::words::word;
use qkd_base::{Memory, Octets, Texts};
use run_types::Item;
use std::alloc::Global;

/// Adds an item's words to a line. `nodes` are the names of the nodes. The only error is that memory runs out.
#[tactic(auto, unfolding(run_types::specs::Texts::item_text))]
pub fn item(alloc: Global, line: &mut Octets, nodes: &Texts, item: &Item) -> Result<(), Memory>
    ensures { OnOk result (line.new ≡ line.old ++ 32 ∷ item_text nodes.now item.now) }
{
    match *item {
        Item::Refused(why) => refusal(alloc, line, why),
        Item::Took { link, end, number } => took(line, link, end, number),
        Item::TookNone {
            link,
            end,
            refusal: why,
        } => took_none(alloc, line, link, end, why),
        Item::Made { count, first } => made(line, count, first),
        Item::Ticked { node, fresh, again } => ticked(line, nodes, node, fresh, again),
        Item::Idle { node } => idle(line, nodes, node),
        Item::NotTicked { node, refusal: why } => not_ticked(alloc, line, nodes, node, why),
        Item::Short {
            lane,
            used,
            need,
            received,
        } => short(line, lane, used, need, received),
        Item::Sent {
            lane,
            number,
            offset,
            length,
        } => sent(line, lane, number, offset, length),
        Item::Unsent {
            lane,
            offset,
            cause,
        } => unsent(line, lane, offset, cause),
        Item::Passed {
            lane,
            number,
            result: came,
        } => passed(alloc, line, lane, number, came),
        Item::Flipped {
            lane,
            number,
            bit,
            result: came,
        } => flipped(alloc, line, lane, number, bit, came),
        Item::Forged { lane, result: came } => forged(alloc, line, lane, came),
        Item::Crashed => word(line, b"crashed"),
        Item::Start(start) => start_result(line, start),
        Item::Armed => word(line, b"armed"),
        Item::LinkSet { link, up } => link_set(line, link, up),
        Item::Keys(ref handed) => keys(alloc, line, handed),
        Item::Ready { count } => ready(line, count),
        Item::Http {
            node,
            status,
            ref body,
        } => http(line, nodes, node, status, body.as_slice()),
        Item::Stream(ref told) => answer(alloc, line, told),
        Item::Shown {
            node,
            name,
            held,
            ref bytes,
        } => shown(alloc, line, nodes, node, name, held, bytes.as_slice()),
        Item::NotShown {
            node,
            name,
            refusal: why,
        } => not_shown(alloc, line, nodes, node, name, why),
        Item::Counted { lane, counts } => counted(line, lane, counts),
        Item::NotCounted { lane, refusal: why } => not_counted(alloc, line, lane, why),
    }
}
