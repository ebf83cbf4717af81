// The items that report a tick's plan.
ghost use Rattle.std.specs.Prelude.{◌≡◌, ◌≤◌, ◌^◌, ◌++◌, IfOk, OnOk, OnErr, map, length};
ghost use Rattle.net_model.specs.Action.{Replies};
ghost use Rattle.net_model.specs.declared.reply.Reply.TheVariants as replies;
ghost use Rattle.run_types.specs.declared.item.Item.TheVariants as items;
ghost use Rattle.run_model.specs.Refusals.{refused_by, reported_by};
ghost use Rattle.run_model.specs.Outcomes.{is_idle, idle_items, short_item, plan_items};

use crate::refusals::refusal_of;
use net_model::{Orders, Repeats, Reply, ShortOf, Shorts};
use qkd_base::{Items, Memory, NodeNo};
use run_types::Item;
use std::alloc::Global;

// Converts a number of frames. An `Err` says that a report can't count that many; no memory holds them.
fn count_of(frames: usize) -> Result<u32, Memory>
    ensures count { IfOk result (λ count. count ≡ frames) }
    ensures large { OnErr result (2 ^ 32 ≤ frames) }
{
    match u32::try_from(frames) {
        Ok(count) => Ok(count),
        Err(_) => Err(Memory),
    }
}

// Whether a plan has nothing to do.
fn is_idle(orders: &Orders, repeats: &Repeats, shorts: &Shorts) -> bool
    ensures { result ≡ is_idle orders.now repeats.now shorts.now }
{
    orders.is_empty() && repeats.is_empty() && shorts.is_empty()
}

// The items for a plan that has nothing to do. A quiet plan has none.
fn idle(alloc: Global, node: NodeNo, quiet: bool) -> Result<Items<Item>, Memory>
    ensures { IfOk result (λ items. items ≡ idle_items quiet node) }
{
    let mut items = Items::new(alloc);
    if !quiet {
        items.push(Item::Idle { node })?;
    }
    Ok(items)
}

fn short_item(short: &ShortOf) -> Item
    ensures { result ≡ short_item short.now }
{
    Item::Short {
        lane: short.lane,
        used: short.used,
        need: short.need,
        received: short.received,
    }
}

// Appends an item for each lane that has too few bytes.
fn push_shorts(items: &mut Items<Item>, shorts: &[ShortOf]) -> Result<(), Memory>
    ensures { OnOk result (items.new ≡ items.old ++ map short_item shorts.now) }
{
    for short in shorts {
        items.push(short_item(short))?;
    }
    Ok(())
}

// The items for a plan that was made: one for its counts, then one for each lane that is short.
fn planned(
    alloc: Global,
    node: NodeNo,
    quiet: bool,
    orders: &Orders,
    repeats: &Repeats,
    shorts: &Shorts,
) -> Result<Items<Item>, Memory>
    ensures { IfOk result (λ items. items ≡ plan_items quiet node (Replies (replies.Planned orders.now repeats.now shorts.now))) }
{
    if is_idle(orders, repeats, shorts) {
        return idle(alloc, node, quiet);
    }
    let mut items = Items::new(alloc);
    let fresh = count_of(orders.len())?;
    let again = count_of(repeats.len())?;
    items.push(Item::Ticked { node, fresh, again })?;
    push_shorts(&mut items, shorts.as_slice())?;
    Ok(items)
}

// The item for a plan that was refused.
fn refused(alloc: Global, node: NodeNo, reply: &Reply) -> Result<Items<Item>, Memory>
    ensures { IfOk result (λ list. list ≡ reported_by (items.NotTicked node) (refused_by reply.now)) }
{
    let mut items = Items::new(alloc);
    if let Some(refusal) = refusal_of(reply) {
        items.push(Item::NotTicked { node, refusal })?;
    }
    Ok(items)
}

/// The items that report the reply to a plan. The reply keeps the frames to be sent. A quiet plan, as in a settle,
/// reports nothing if there is nothing to do.
pub fn tick_items(
    alloc: Global,
    node: NodeNo,
    quiet: bool,
    reply: &Reply,
) -> Result<Items<Item>, Memory>
    ensures { IfOk result (λ items. items ≡ plan_items quiet node (Replies reply.now)) }
{
    match reply {
        Reply::Planned {
            orders,
            repeats,
            shorts,
        } => planned(alloc, node, quiet, orders, repeats, shorts),
        other => refused(alloc, node, other),
    }
}
