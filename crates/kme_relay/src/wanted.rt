// What is sent on a lane for the first time.
ghost use Rattle.std.specs.Prelude.{◌≡◌, ◌+◌, ◌<◌, ◌^◌, ◌∷◌, [], List, false, IfSome, IfNone, OnOk, Some, length, slice_get, option_map};
ghost use Rattle.net_model.specs.Item.{AckItem};
ghost use Rattle.net_model.specs.Table.{name_of};
ghost use Rattle.qkd_base.specs.Lane.{reverse_lane};
ghost use Rattle.net_model.specs.declared.fact.Fact.{Fact as FactValue};
ghost use Rattle.kme_relay.specs.Wanted.{acks_from, acks_wanted, facts_from, data_on};
ghost use Rattle.kme_relay.specs.Drafts.{with_all};
ghost use Rattle.kme_relay.specs.UnderWay.{AreUnderWay};

use crate::draft::Draft;
use qkd_base::{KeyName, Lane, Memory, NodeNo, Way};
use relay_core::{Known, fact_name};
use resend_window::{Pending, Window};

/// A fact that must be sent: its place in the list of facts, and its name.
#[derive(Clone, Copy)]
struct Owed {
    place: usize,
    name: KeyName,
}

/// The other lane of a link.
pub fn reversed(lane: &Lane) -> Lane
    ensures { result ≡ reverse_lane lane.now }
{
    let way = match lane.way {
        Way::Up => Way::Down,
        Way::Down => Way::Up,
    };
    Lane {
        link: lane.link,
        way,
    }
}

// The first acknowledgement, at or after place `from`, that must be sent on this lane.
fn next_ack(window: &Window, lane: &Lane, from: usize) -> Option<Pending>
    ensures some { IfSome result (λ p. acks_from window.now lane.now from ≡ record { lane = lane.now; item = AckItem p.name; received_offset = Some p.offset } ∷ acks_from window.now lane.now (p.place + 1)) }
    ensures none { IfNone result (acks_from window.now lane.now from ≡ []) }
    ensures place { IfSome result (λ p. p.place < 2 ^ 63) }
{
    let mut next = from;
    while let Some(pending) = window.next_pending(reversed(lane), next) {
        if !window.awaits(*lane, pending.name, Some(pending.offset)) {
            return Some(pending);
        }
        next = pending.place + 1;
    }
    None
}

/// Adds orders for the acknowledgements that a lane must carry, as far as its bytes suffice.
pub fn add_acks(
    draft: &mut Draft,
    window: &Window,
    lane: &Lane,
    received: u64,
) -> Result<(), Memory>
    ensures { OnOk result ((facts : List FactValue) → draft.new ≡ with_all facts lane.now received draft.old (acks_wanted window.now.volatile lane.now)) }
{
    window.stands();
    let mut from = 0;
    while !draft.is_full {
        match next_ack(window, lane, from) {
            None => return Ok(()),
            Some(pending) => {
                draft.add_ack(lane, received, pending.offset, pending.name)?;
                from = pending.place + 1;
            }
        }
    }
    Ok(())
}

/// The name of the fact at a place.
pub fn name_at(known: &Known, place: usize) -> Option<KeyName>
    ensures { result ≡ option_map name_of (slice_get known.now.facts place) }
{
    match known.at(place) {
        None => None,
        Some(fact) => Some(fact_name(fact)),
    }
}

// The first fact, at or after place `from`, that must be sent on this lane.
fn next_fact(known: &Known, window: &Window, lane: &Lane, to: NodeNo, from: usize) -> Option<Owed>
    ensures some { IfSome result (λ o. facts_from known.now window.now.volatile lane.now to from ≡ data_on lane.now o.name ∷ facts_from known.now window.now.volatile lane.now to (o.place + 1)) }
    ensures none { IfNone result (facts_from known.now window.now.volatile lane.now to from ≡ []) }
    ensures place { IfSome result (λ o. o.place < length known.now.facts) }
{
    // The contract of `len` also bounds each place.
    let _holds = known.len();
    let mut next = from;
    while let Some(place) = known.next_owed(to, next) {
        match name_at(known, place) {
            None => return None,
            Some(name) => {
                if !window.holds(*lane, name) && !window.awaits(*lane, name, None) {
                    return Some(Owed { place, name });
                }
                next = place + 1;
            }
        }
    }
    None
}

/// Adds orders for the facts that are owed to a lane's receiver, as far as the lane's bytes suffice. The facts before
/// place `front` must be on their way.
pub fn add_facts(
    draft: &mut Draft,
    known: &Known,
    window: &Window,
    lane: &Lane,
    to: NodeNo,
    front: usize,
    received: u64,
) -> Result<(), Memory>
    requires { AreUnderWay known.now.me known.now.acked known.now.facts window.now.volatile lane.now to front }
    ensures { OnOk result (draft.new ≡ with_all known.now.facts lane.now received draft.old (facts_from known.now window.now.volatile lane.now to 0)) }
{
    // The contract of `len` also bounds each place.
    let _holds = known.len();
    let mut from = front;
    while !draft.is_full {
        match next_fact(known, window, lane, to, from) {
            None => return Ok(()),
            Some(owed) => match known.fact(owed.name) {
                None => return Err(Memory),
                Some(fact) => {
                    draft.add_fact(lane, received, fact)?;
                    from = owed.place + 1;
                }
            },
        }
    }
    Ok(())
}
