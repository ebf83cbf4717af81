// What an item tells.
ghost use Rattle.std.specs.Prelude.{◌≡◌, ◌∷◌, OnOk, IfOk};
ghost use Rattle.serde_json.specs.View.{view};
ghost use lib.Chars.{codes};
ghost use Rattle.report_json.specs.Words.{counts, refusal_fields};
ghost use Rattle.report_json.specs.Members.{members_in};
ghost use Rattle.report_json.specs.Objects.{put_all, is_a, item_fields, object_of};

use crate::frame_items::{
    counted, flipped, forged, idle, link_set, not_counted, not_ticked, passed, sent, short, ticked,
    took, took_none, unsent,
};
use crate::key_items::{answer, http, keys, made, not_shown, ready, shown};
use crate::object::Object;
use crate::refusal::{refusal, start_result};
use qkd_base::{Memory, Texts};
use run_types::{Item, NumberedItem, Refusal};
use serde_json::Value;
use std::alloc::Global;

// The line was refused.
fn refused(object: &mut Object, why: Refusal) -> Result<(), Memory>
    ensures { OnOk result (members_in object.new ≡ put_all (members_in object.old) (is_a (codes "refused") ∷ refusal_fields why)) }
{
    object.is_a("refused")?;
    refusal(object, why)
}

// Adds what an item tells.
#[tactic(auto, unfolding(crate::specs::Objects::item_fields))]
fn item(object: &mut Object, nodes: &Texts, round: u64, item: &Item) -> Result<(), Memory>
    ensures { OnOk result (members_in object.new ≡ put_all (members_in object.old) (item_fields nodes.now round item.now)) }
{
    match *item {
        Item::Refused(why) => refused(object, why),
        Item::Took { link, end, number } => took(object, link, end, number),
        Item::TookNone {
            link,
            end,
            refusal: why,
        } => took_none(object, link, end, why),
        Item::Made { count, first } => made(object, count, first),
        Item::Ticked { node, fresh, again } => ticked(object, nodes, round, node, fresh, again),
        Item::Idle { node } => idle(object, nodes, node),
        Item::NotTicked { node, refusal: why } => not_ticked(object, nodes, round, node, why),
        Item::Short {
            lane,
            used,
            need,
            received,
        } => short(object, round, lane, used, need, received),
        Item::Sent {
            lane,
            number,
            offset,
            length,
        } => sent(object, round, lane, number, offset, length),
        Item::Unsent {
            lane,
            offset,
            cause,
        } => unsent(object, round, lane, offset, cause),
        Item::Passed {
            lane,
            number,
            result: came,
        } => passed(object, round, lane, number, came),
        Item::Flipped {
            lane,
            number,
            bit,
            result: came,
        } => flipped(object, lane, number, bit, came),
        Item::Forged { lane, result: came } => forged(object, lane, came),
        Item::Crashed => object.is_a("crashed"),
        Item::Start(start) => start_result(object, start),
        Item::Armed => object.is_a("armed"),
        Item::LinkSet { link, up } => link_set(object, link, up),
        Item::Keys(ref handed) => keys(object, handed),
        Item::Ready { count } => ready(object, count),
        Item::Http {
            node,
            status,
            ref body,
        } => http(object, nodes, node, status, body.as_slice()),
        Item::Stream(ref told) => answer(object, told),
        Item::Shown {
            node,
            name,
            held,
            ref bytes,
        } => shown(object, nodes, node, name, held, bytes.as_slice()),
        Item::NotShown {
            node,
            name,
            refusal: why,
        } => not_shown(object, nodes, node, name, why),
        Item::Counted { lane, counts } => counted(object, lane, counts),
        Item::NotCounted { lane, refusal: why } => not_counted(object, lane, why),
    }
}

/// The object of an item, with the number of its line and its round.
pub(crate) fn object_of(
    alloc: Global,
    nodes: &Texts,
    round: u64,
    told: &NumberedItem,
) -> Result<Value, Memory>
    ensures { IfOk result (λ value. view value ≡ object_of nodes.now round told.now) }
{
    let mut object = Object::new(alloc);
    object.counts("line", u64::from(told.number))?;
    item(&mut object, nodes, round, &told.item)?;
    Ok(object.into_value())
}
