// Rule 14, as to hops: over which lanes nodes took facts.
ghost use Rattle.std.specs.Prelude.{◌≡◌, List, [], ◌∷◌, OnOk};
ghost use Rattle.run_types.specs.declared.item.NumberedItem.{NumberedItem as Told};
ghost use Rattle.whole_audit.specs.Arrivals.{arrival_on, arrival_of, has_arrived};
ghost use Rattle.whole_audit.specs.Kept.{AreArrived};

use crate::handings::key_entry;
use crate::knowledge::is_ack;
use item_audit::lane_place;
use ordered_set::Entries;
use qkd_base::{KeyName, Lane, Memory};
use run_types::{FrameResult, Item};
use std::alloc::Global;

/// A fact that a lane's receiver took.
#[derive(Clone, Copy)]
pub struct Arrival {
    pub lane: Lane,
    pub name: KeyName,
}

/// The facts that lanes' receivers took.
#[derive(Drop)]
pub struct Arrivals {
    came: Entries,
}

// What the receiver of a lane took.
fn arrival_on(lane: &Lane, outcome: &FrameResult) -> Option<Arrival>
    ensures { result ≡ arrival_on lane.now outcome.now }
{
    match outcome {
        FrameResult::Taken { kind, name } => {
            if is_ack(*kind) {
                None
            } else {
                Some(Arrival {
                    lane: *lane,
                    name: *name,
                })
            }
        }
        _ => None,
    }
}

// What a lane's receiver took, if the item tells of that.
fn arrival_of(item: &Item) -> Option<Arrival>
    ensures { result ≡ arrival_of item.now }
{
    match item {
        Item::Passed {
            lane,
            result: outcome,
            ..
        } => arrival_on(lane, outcome),
        Item::Flipped {
            lane,
            result: outcome,
            ..
        } => arrival_on(lane, outcome),
        Item::Forged {
            lane,
            result: outcome,
        } => arrival_on(lane, outcome),
        _ => None,
    }
}

impl Arrivals {
    /// Before the first item. The call allocates nothing.
    pub fn new(alloc: Global) -> Self
        ensures { AreArrived result [] }
    {
        Arrivals {
            came: Entries::new(alloc),
        }
    }

    /// Whether a lane's receiver took a fact from there.
    pub fn has(&self, lane: &Lane, name: &KeyName) -> bool
        ensures { (before : List Told) → AreArrived self.now before → result ≡ has_arrived before lane.now name.now }
    {
        self.came.has(key_entry(name, lane_place(lane)))
    }

    /// Adds an item. The only error is that memory runs out.
    pub fn learn(&mut self, item: &Item) -> Result<(), Memory>
        ensures { (told : Told) (before : List Told) → told.item ≡ item.now → AreArrived self.old before → OnOk result (AreArrived self.new (told ∷ before)) }
    {
        match arrival_of(item) {
            Some(arrival) => {
                self.came
                    .insert(key_entry(&arrival.name, lane_place(&arrival.lane)))
            }
            None => Ok(()),
        }
    }
}
