// The names that nodes took.
ghost use Rattle.std.specs.Prelude.{◌≡◌, List, [], true, IfOk};
ghost use Rattle.std.specs.List.{cons_option};
ghost use Rattle.run_audit.specs.declared.takings.Taking.{Taking as Took};
ghost use Rattle.run_audit.specs.Takings.{receiver, is_ack, taken_on, taking_of, is_first};
ghost use Rattle.run_audit.specs.Kept.{bool_number, taking_entry, AreTaken};

use crate::tellings::origin_number;
use ordered_set::{Entries, Entry};
use qkd_base::{KeyName, Lane, Memory, NodeNo, Way};
use route_table::RouteTable;
use run_types::{FrameResult, Item, PayloadKind};
use std::alloc::Global;

/// A node took a name, as a fact or as an acknowledgement.
#[derive(Clone, Copy)]
pub struct Taking {
    node: u8,
    is_ack: bool,
    name: KeyName,
}

/// The names that nodes took.
#[derive(Drop)]
pub struct Takings {
    entries: Entries,
}

// The receiver of a lane, or node 0 if there is no such link.
fn receiver(routes: &RouteTable, lane: &Lane) -> u8
    ensures { result ≡ receiver routes.now lane.now }
{
    match routes.ends(lane.link) {
        Some((low, high)) => match lane.way {
            Way::Up => high.get(),
            Way::Down => low.get(),
        },
        None => 0,
    }
}

fn is_ack(kind: PayloadKind) -> bool
    ensures { result ≡ is_ack kind }
{
    matches!(kind, PayloadKind::Ack)
}

fn taken_on(routes: &RouteTable, lane: &Lane, outcome: &FrameResult) -> Option<Taking>
    ensures { result ≡ taken_on routes.now lane.now outcome.now }
{
    match outcome {
        FrameResult::Taken { kind, name } => Some(Taking {
            node: receiver(routes, lane),
            is_ack: is_ack(*kind),
            name: *name,
        }),
        _ => None,
    }
}

/// The taking that an item reports, if it reports one.
pub fn taking_of(routes: &RouteTable, item: &Item) -> Option<Taking>
    ensures { result ≡ taking_of routes.now item.now }
{
    match item {
        Item::Passed { lane, result, .. } => taken_on(routes, lane, result),
        Item::Flipped { lane, result, .. } => taken_on(routes, lane, result),
        Item::Forged { lane, result } => taken_on(routes, lane, result),
        _ => None,
    }
}

fn bool_number(flag: bool) -> u64
    ensures { result ≡ bool_number flag }
{
    if flag { 1 } else { 0 }
}

fn entry_of(taking: &Taking) -> Entry
    ensures { result ≡ taking_entry taking.now }
{
    [
        taking.name.count(),
        origin_number(&taking.name),
        u64::from(taking.node),
        bool_number(taking.is_ack),
        0,
    ]
}

impl Takings {
    /// No takings. The call allocates nothing.
    pub fn new(alloc: Global) -> Self
        ensures { AreTaken result [] }
    {
        Takings {
            entries: Entries::new(alloc),
        }
    }

    /// Adds a taking, and returns whether it is new. Without a taking the answer is yes. The only error is that memory runs out.
    pub fn take(&mut self, taking: Option<Taking>) -> Result<bool, Memory>
        ensures { (ts : List Took) → AreTaken self.old ts → IfOk result (λ first. (first ≡ is_first taking ts) × (first ≡ true → AreTaken self.new (cons_option taking ts))) }
    {
        match taking {
            Some(taking) => {
                let entry = entry_of(&taking);
                if self.entries.has(entry) {
                    return Ok(false);
                }
                self.entries.insert(entry)?;
                Ok(true)
            }
            None => Ok(true),
        }
    }
}
