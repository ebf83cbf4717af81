// Rule 8: which managers are up, and which were started.
ghost use Rattle.std.specs.Prelude.{◌≡◌, List, ◌∷◌, OnOk};
ghost use Rattle.run_types.specs.declared.scenario.Scenario.{Scenario as Lines};
ghost use Rattle.run_types.specs.declared.item.NumberedItem.{NumberedItem as Told};
ghost use Rattle.whole_audit.specs.Managers.{said, is_node_up, is_so, start_of, was_started, burns, is_crash, stop_of, was_stopped};
ghost use Rattle.whole_audit.specs.Tracks.{was_started_at};
ghost use Rattle.whole_audit.specs.Kept.{number_entry, AreDownNodes, AreStarted, AreStopped};

use declared_site::Site;
use item_audit::{Said, sender};
use ordered_set::{Entries, Entry as Numbers};
use qkd_base::{Lane, Memory};
use run_types::Item;

/// The entry of a node in a set.
pub fn node_entry(node: u64) -> Numbers
    ensures { result ≡ number_entry node }
{
    [node, 0, 0, 0, 0]
}

// Whether a manager is up.
fn is_node_up(down: &Entries, node: u64) -> bool
    ensures { (s : Lines) (before : List Told) → AreDownNodes s down.now before → result ≡ is_node_up s node before }
{
    !down.has(node_entry(node))
}

/// Whether what is said fits the set of managers that are down.
pub fn is_so(down: &Entries, said: &Option<Said>) -> bool
    ensures { (s : Lines) (before : List Told) → AreDownNodes s down.now before → result ≡ is_so said.now (λ v. is_node_up s v before) }
{
    match said {
        Some(said) => {
            if said.was_up {
                is_node_up(down, said.node)
            } else {
                !is_node_up(down, said.node)
            }
        }
        None => true,
    }
}

/// Adds what an item says to the set of managers that are down. The only error is that memory runs out.
pub fn learn_manager(down: &mut Entries, word: &Option<Said>) -> Result<(), Memory>
    ensures { (s : Lines) (told : Told) (before : List Told) → word.now ≡ said s told → AreDownNodes s down.old before → OnOk result (AreDownNodes s down.new (told ∷ before)) }
{
    match word {
        Some(
            Said {
                node,
                is_up: true,
                ..
            },
        ) => {
            down.remove(node_entry(*node));
            Ok(())
        }
        Some(
            Said {
                node,
                is_up: false,
                ..
            },
        ) => down.insert(node_entry(*node)),
        None => Ok(()),
    }
}

// The node that an item says was started.
fn start_of(said: &Option<Said>) -> Option<u64>
    ensures { result ≡ start_of said.now }
{
    match said {
        Some(said) => {
            if said.is_up && !said.was_up {
                Some(said.node)
            } else {
                None
            }
        }
        None => None,
    }
}

/// Adds a start, if an item tells of one, to the set of nodes that were started. The only error is that memory runs out.
pub fn learn_start(started: &mut Entries, word: &Option<Said>) -> Result<(), Memory>
    ensures { (s : Lines) (told : Told) (before : List Told) → word.now ≡ said s told → AreStarted s started.old before → OnOk result (AreStarted s started.new (told ∷ before)) }
{
    match start_of(word) {
        Some(node) => started.insert(node_entry(node)),
        None => Ok(()),
    }
}

fn is_crash(item: &Item) -> bool
    ensures { result ≡ is_crash item.now }
{
    matches!(item, Item::Crashed)
}

// The node that an item says stopped.
fn stop_of(crashes: bool, said: &Option<Said>) -> Option<u64>
    ensures { result ≡ stop_of crashes said.now }
{
    match said {
        Some(said) => {
            if said.was_up && !(said.is_up || crashes) {
                Some(said.node)
            } else {
                None
            }
        }
        None => None,
    }
}

/// Adds a stop, if an item tells of one, to the set of nodes that stopped. The only error is that memory runs out.
pub fn learn_stop(stopped: &mut Entries, item: &Item, word: &Option<Said>) -> Result<(), Memory>
    ensures { (s : Lines) (told : Told) (before : List Told) → told.item ≡ item.now → word.now ≡ said s told → AreStopped s stopped.old before → OnOk result (AreStopped s stopped.new (told ∷ before)) }
{
    match stop_of(is_crash(item), word) {
        Some(node) => stopped.insert(node_entry(node)),
        None => Ok(()),
    }
}

/// Whether a manager stopped in something that it was asked.
pub fn was_stopped(stopped: &Entries, node: u64) -> bool
    ensures { (s : Lines) (before : List Told) → AreStopped s stopped.now before → result ≡ was_stopped s node before }
{
    stopped.has(node_entry(node))
}

/// Whether a ledger tells of no burnt bytes, unless the sender was started.
pub fn burns(started: &Entries, site: &Site, item: &Item) -> bool
    ensures { (s : Lines) (before : List Told) → s.site ≡ site.now → AreStarted s started.now before → result ≡ burns s before item.now }
{
    match item {
        Item::Counted { lane, counts } => {
            started.has(node_entry(sender(site, lane))) || counts.burnt == 0
        }
        _ => true,
    }
}

/// Whether the sender of a lane, if there is a lane, was started.
pub fn was_started_at(started: &Entries, site: &Site, lane: &Option<Lane>) -> bool
    ensures { (s : Lines) (before : List Told) → s.site ≡ site.now → AreStarted s started.now before → result ≡ was_started_at s lane.now before }
{
    match lane {
        Some(lane) => started.has(node_entry(sender(site, lane))),
        None => false,
    }
}
