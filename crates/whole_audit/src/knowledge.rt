// Rule 14, as to facts: which names nodes took.
ghost use Rattle.std.specs.Prelude.{◌≡◌, List, [], ◌∷◌, OnOk};
ghost use Rattle.qkd_base.specs.Name.{kind_number};
ghost use Rattle.run_types.specs.declared.scenario.Scenario.{Scenario as Lines};
ghost use Rattle.run_types.specs.declared.item.NumberedItem.{NumberedItem as Told};
ghost use Rattle.run_audit.specs.Takings.{is_ack};
ghost use Rattle.whole_audit.specs.Knowledge.{heard_on, heard_of, may_have_heard, may_answer, may_know, may_tell, result_is_known, is_known};
ghost use Rattle.whole_audit.specs.Kept.{bool_number, heard_entry, AreStopped, AreArrived, AreHeard};

use crate::arrivals::Arrivals;
use crate::managers::was_stopped;
use declared_site::Site;
use item_audit::{receiver, reversed, sender};
use ordered_set::{Entries, Entry as Numbers};
use qkd_base::{KeyName, Lane, Memory, NameKind};
use run_types::{FrameResult, Item, PayloadKind};
use std::alloc::Global;

/// A node took a name, as a fact or as an acknowledgement.
#[derive(Clone, Copy)]
pub struct Heard {
    pub node: u64,
    pub is_ack: bool,
    pub name: KeyName,
}

/// The names that nodes took.
#[derive(Drop)]
pub struct Knowledge {
    heard: Entries,
}

/// Whether a payload is an acknowledgement.
pub fn is_ack(kind: PayloadKind) -> bool
    ensures { result ≡ is_ack kind }
{
    matches!(kind, PayloadKind::Ack)
}

// What the receiver of a lane took.
fn heard_on(site: &Site, lane: &Lane, outcome: &FrameResult) -> Option<Heard>
    ensures { result ≡ heard_on site.now lane.now outcome.now }
{
    match outcome {
        FrameResult::Taken { kind, name } => Some(Heard {
            node: receiver(site, lane),
            is_ack: is_ack(*kind),
            name: *name,
        }),
        _ => None,
    }
}

// What a node took, if the item tells of that.
fn heard_of(site: &Site, item: &Item) -> Option<Heard>
    ensures { result ≡ heard_of site.now item.now }
{
    match item {
        Item::Passed {
            lane,
            result: outcome,
            ..
        } => heard_on(site, lane, outcome),
        Item::Flipped {
            lane,
            result: outcome,
            ..
        } => heard_on(site, lane, outcome),
        Item::Forged {
            lane,
            result: outcome,
        } => heard_on(site, lane, outcome),
        _ => None,
    }
}

fn bool_number(flag: bool) -> u64
    ensures { result ≡ bool_number flag }
{
    if flag { 1 } else { 0 }
}

/// The number of a name's kind.
pub fn kind_number(name: &KeyName) -> u64
    ensures { result ≡ kind_number name.now.kind }
{
    match name.kind() {
        NameKind::Key => 0,
        NameKind::Stream => 1,
        NameKind::Note => 2,
    }
}

// What was taken, as an entry of a set.
fn heard_entry(heard: &Heard) -> Numbers
    ensures { result ≡ heard_entry heard.now }
{
    [
        heard.name.count(),
        u64::from(heard.name.node().get()),
        kind_number(&heard.name),
        heard.node,
        bool_number(heard.is_ack),
    ]
}

// Whether the sender of a lane may acknowledge a fact.
fn may_answer(
    arrivals: &Arrivals,
    stopped: &Entries,
    site: &Site,
    lane: &Lane,
    name: KeyName,
) -> bool
    ensures { (s : Lines) (before : List Told) → s.site ≡ site.now → AreStopped s stopped.now before → AreArrived arrivals.now before → result ≡ may_answer s before lane.now name }
{
    arrivals.has(&reversed(lane), &name) || was_stopped(stopped, sender(site, lane))
}

impl Knowledge {
    /// Before the first item. The call allocates nothing.
    pub fn new(alloc: Global) -> Self
        ensures { (s : Lines) → AreHeard s result [] }
    {
        Knowledge {
            heard: Entries::new(alloc),
        }
    }

    // Whether a node may have taken a name.
    fn may_have_heard(&self, stopped: &Entries, node: u64, is_ack: bool, name: KeyName) -> bool
        ensures { (s : Lines) (before : List Told) → AreStopped s stopped.now before → AreHeard s self.now before → result ≡ may_have_heard s before node is_ack name }
    {
        self.heard.has(heard_entry(&Heard { node, is_ack, name })) || was_stopped(stopped, node)
    }

    // Whether a node may know a fact.
    fn may_know(&self, stopped: &Entries, node: u64, name: KeyName) -> bool
        ensures { (s : Lines) (before : List Told) → AreStopped s stopped.now before → AreHeard s self.now before → result ≡ may_know s before node name }
    {
        u64::from(name.node().get()) == node || self.may_have_heard(stopped, node, false, name)
    }

    // Whether the sender of a lane may tell this name, as a fact or as an acknowledgement.
    fn may_tell(
        &self,
        arrivals: &Arrivals,
        stopped: &Entries,
        site: &Site,
        lane: &Lane,
        is_ack: bool,
        name: KeyName,
    ) -> bool
        ensures { (s : Lines) (before : List Told) → s.site ≡ site.now → AreStopped s stopped.now before → AreArrived arrivals.now before → AreHeard s self.now before → result ≡ may_tell s before lane.now is_ack name }
    {
        if is_ack {
            may_answer(arrivals, stopped, site, lane, name)
                && self.may_know(stopped, receiver(site, lane), name)
        } else {
            self.may_know(stopped, sender(site, lane), name)
        }
    }

    // Whether this may have become of a frame, as far as its sender and its receiver know.
    fn result_is_known(
        &self,
        arrivals: &Arrivals,
        stopped: &Entries,
        site: &Site,
        lane: &Lane,
        outcome: &FrameResult,
    ) -> bool
        ensures { (s : Lines) (before : List Told) → s.site ≡ site.now → AreStopped s stopped.now before → AreArrived arrivals.now before → AreHeard s self.now before → result ≡ result_is_known s before lane.now outcome.now }
    {
        match outcome {
            FrameResult::Taken { kind, name } => self.may_tell(
                arrivals,
                stopped,
                site,
                lane,
                is_ack(*kind),
                *name,
            ),
            FrameResult::Again { kind, name } => {
                self.may_tell(arrivals, stopped, site, lane, is_ack(*kind), *name)
                    && self.may_have_heard(stopped, receiver(site, lane), is_ack(*kind), *name)
            }
            FrameResult::Refused(_) => true,
        }
    }

    /// Whether the item, if it is of a frame that came, tells what the frame's sender and receiver may know.
    pub fn is_known(&self, arrivals: &Arrivals, stopped: &Entries, site: &Site, item: &Item) -> bool
        ensures { (s : Lines) (before : List Told) → s.site ≡ site.now → AreStopped s stopped.now before → AreArrived arrivals.now before → AreHeard s self.now before → result ≡ is_known s before item.now }
    {
        match item {
            Item::Passed {
                lane,
                result: outcome,
                ..
            } => self.result_is_known(arrivals, stopped, site, lane, outcome),
            Item::Flipped {
                lane,
                result: outcome,
                ..
            } => self.result_is_known(arrivals, stopped, site, lane, outcome),
            Item::Forged {
                lane,
                result: outcome,
            } => self.result_is_known(arrivals, stopped, site, lane, outcome),
            _ => true,
        }
    }

    /// Adds an item. The only error is that memory runs out.
    pub fn learn(&mut self, site: &Site, item: &Item) -> Result<(), Memory>
        ensures { (s : Lines) (told : Told) (before : List Told) → s.site ≡ site.now → told.item ≡ item.now → AreHeard s self.old before → OnOk result (AreHeard s self.new (told ∷ before)) }
    {
        match heard_of(site, item) {
            Some(heard) => self.heard.insert(heard_entry(&heard)),
            None => Ok(()),
        }
    }
}
