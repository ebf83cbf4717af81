// The frames that a plan sends again.
ghost use Rattle.std.specs.Prelude.{◌≡◌, ◌+◌, ◌<◌, ◌^◌, ◌∷◌, [], map, IfSome, IfNone, IfOk};
ghost use Rattle.net_model.specs.Window.{repeats_on, repeat_of};
ghost use Rattle.resend_window.specs.Held.{AreHeld, AreApart, entries_at};
ghost use Rattle.resend_window.specs.Kept.{somes};
ghost use Rattle.resend_window.specs.Repeating.{rest_after};

use crate::edit::Query;
use crate::held_list::HeldList;
use net_model::{Repeat, Repeats};
use qkd_base::{Items, Lane, Memory};

// Of the frames on this lane that are sent again at the next tick, the one with the least offset above `after`.
fn next_repeat(slots: &HeldList, tick: u64, lane: &Lane, after: Option<u64>) -> Option<Repeat>
    requires room { tick + 1 < 2 ^ 64 }
    requires held { AreHeld tick (somes slots.now.items) }
    requires apart { AreApart (somes slots.now.items) }
    ensures some { IfSome result (λ r. rest_after (tick + 1) lane.now (somes slots.now.items) after ≡ r ∷ rest_after (tick + 1) lane.now (somes slots.now.items) (Some r.offset)) }
    ensures none { IfNone result (rest_after (tick + 1) lane.now (somes slots.now.items) after ≡ []) }
{
    match slots.next_offset(tick, lane, after) {
        None => None,
        Some(offset) => match slots.first(&Query::At(*lane, offset)) {
            None => None,
            Some(held) => Some(held.repeat()),
        },
    }
}

/// The frames on this lane that are sent again at the next tick, in order of offset, at most 16.
pub fn repeats_of(slots: &HeldList, tick: u64, lane: &Lane) -> Result<Repeats, Memory>
    requires room { tick + 1 < 2 ^ 64 }
    requires held { AreHeld tick (somes slots.now.items) }
    requires apart { AreApart (somes slots.now.items) }
    ensures { IfOk result (λ rs. rs ≡ map repeat_of (repeats_on (entries_at (tick + 1) (somes slots.now.items)) lane.now)) }
{
    let mut repeats = Items::new(slots.allocator());
    let mut after = None;
    for count in 0..16u8 {
        match next_repeat(slots, tick, lane, after) {
            None => return Ok(repeats),
            Some(repeat) => {
                after = Some(repeat.offset);
                repeats.push(repeat)?;
            }
        }
    }
    Ok(repeats)
}
