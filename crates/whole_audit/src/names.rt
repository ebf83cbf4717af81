// Rule 12, as to names: the counts of the names that nodes give.
ghost use Rattle.std.specs.Prelude.{◌≡◌, ℕ, ◌==◌, List, [], ◌∷◌, if◌then◌else◌, OnOk};
ghost use Rattle.std.specs.List.{list_all};
ghost use Rattle.run_types.specs.declared.scenario.Scenario.{Scenario as Lines};
ghost use Rattle.run_types.specs.declared.item.NumberedItem.{NumberedItem as Told};
ghost use Rattle.whole_audit.specs.Names.{given, count_behind, names_of, is_next_name, names_follow, was_given, keys_were_given, told_was_given, frame_was_given, shown_was_given};
ghost use Rattle.whole_audit.specs.Kept.{named_at, AreNamed};

use crate::blocks::{Count, no_count};
use item_audit::{Given, bounded};
use net_model::Held;
use qkd_base::{KeyName, Memory, Octets};
use run_types::{FrameResult, Item};
use std::alloc::Global;
use std::collections::BTreeMap;

/// How many names nodes may have given.
#[derive(Drop)]
pub struct Names {
    nodes: BTreeMap<[u64; 1], Count>,
}

// How many names a node may have given behind these.
fn count_behind(given: &Given, count: &Count) -> Count
    ensures { result ≡ count_behind given.now.first given.now.more count.now }
{
    match given.first {
        Some(first) => {
            let last = bounded((u128::from(first) + u128::from(given.more)).saturating_sub(1));
            Count {
                least: last,
                most: last,
            }
        }
        None => Count {
            least: count.least,
            most: bounded(u128::from(count.most) + u128::from(given.more)),
        },
    }
}

// Whether a name may follow those that its node gave.
fn is_next_name(first: &Option<u64>, count: &Count) -> bool
    ensures { result ≡ is_next_name first.now count.now }
{
    match first {
        Some(first) => count.least < *first && u128::from(*first) <= u128::from(count.most) + 1,
        None => true,
    }
}

impl Names {
    /// Before the first item. The call allocates nothing.
    pub fn new(alloc: Global) -> Self
        ensures { (s : Lines) → AreNamed s result [] }
    {
        Names {
            nodes: BTreeMap::new(alloc),
        }
    }

    // How many names a node may have given.
    fn at(&self, node: u64) -> Count
        ensures { result ≡ named_at self.now node }
    {
        match self.nodes.get(&[node]) {
            Some(count) => *count,
            None => no_count(),
        }
    }

    // Puts the count of a node in place of the earlier one.
    fn put(&mut self, node: u64, count: Count) -> Result<(), Memory>
        ensures { OnOk result ((v : ℕ) → named_at self.new v ≡ (if node == v then count else named_at self.old v)) }
    {
        self.nodes.insert([node], count)?;
        Ok(())
    }

    // Whether a name's node may have given it.
    fn gave(&self, name: &KeyName) -> bool
        ensures { result ≡ was_given (named_at self.now) name.now }
    {
        name.count() <= self.at(u64::from(name.node().get())).most
    }

    // Whether the nodes may have given the names of these keys.
    fn gave_all(&self, keys: &[(KeyName, Octets)]) -> bool
        ensures { result ≡ list_all (λ k. was_given (named_at self.now) k.0) keys.now }
    {
        keys.iter().all(|key| self.gave(&key.0))
    }

    /// Whether the keys that are handed out may have been given their names.
    pub fn gave_keys(&self, item: &Item) -> bool
        ensures { result ≡ keys_were_given (named_at self.now) item.now }
    {
        match item {
            Item::Keys(keys) => self.gave_all(keys.as_slice()),
            _ => true,
        }
    }

    // Whether the name that a frame tells may have been given.
    fn gave_told(&self, outcome: &FrameResult) -> bool
        ensures { result ≡ told_was_given (named_at self.now) outcome.now }
    {
        match outcome {
            FrameResult::Taken { name, .. } => self.gave(name),
            FrameResult::Again { name, .. } => self.gave(name),
            FrameResult::Refused(_) => true,
        }
    }

    /// Whether the name that a frame tells, if the item is of one, may have been given.
    pub fn gave_frame(&self, item: &Item) -> bool
        ensures { result ≡ frame_was_given (named_at self.now) item.now }
    {
        match item {
            Item::Passed {
                result: outcome,
                ..
            } => self.gave_told(outcome),
            Item::Flipped {
                result: outcome,
                ..
            } => self.gave_told(outcome),
            Item::Forged {
                result: outcome,
                ..
            } => self.gave_told(outcome),
            _ => true,
        }
    }

    /// Whether the name under which a node holds something may have been given.
    pub fn gave_shown(&self, item: &Item) -> bool
        ensures { result ≡ shown_was_given (named_at self.now) item.now }
    {
        match item {
            Item::Shown { name, held, .. } => match held {
                Held::Absent => true,
                _ => self.gave(name),
            },
            _ => true,
        }
    }

    /// Whether the names that an item tells of follow those that their node gave before.
    pub fn follow(&self, given: &Option<Given>) -> bool
        ensures { (s : Lines) (before : List Told) → AreNamed s self.now before → result ≡ names_follow given.now (λ v. names_of s v before) }
    {
        match given {
            Some(given) => is_next_name(&given.first, &self.at(given.node)),
            None => true,
        }
    }

    /// Adds the names that an item tells of. The only error is that memory runs out.
    pub fn learn(&mut self, gift: &Option<Given>) -> Result<(), Memory>
        ensures { (s : Lines) (told : Told) (before : List Told) → gift.now ≡ given s told → AreNamed s self.old before → OnOk result (AreNamed s self.new (told ∷ before)) }
    {
        match gift {
            Some(given) => {
                let count = count_behind(given, &self.at(given.node));
                self.put(given.node, count)
            }
            None => Ok(()),
        }
    }
}
