// An ordered set of entries.
ghost use Rattle.std.specs.Prelude.{◌≡◌, ◌||◌, ℕ, List, [], false, IfSome, IfNone, OnOk, OnErr, if◌then◌else◌};
ghost use Rattle.std.specs.Str.{bytes_eq};
ghost use Rattle.std.specs.Ordering.{nat_cmp, is_gt};
ghost use Rattle.std.specs.Cmp.Lexicographic.{slice_cmp};
ghost use Rattle.ordered_set.specs.Entries.{has_entry, IsNext, IsLast, IsFirstFrom, IsNoneFrom, IsFirstIn, IsNoneIn};

use crate::key::Key;
use qkd_base::Memory;
use std::alloc::Global;
use std::collections::BTreeSet;
use std::marker::Model;

/// Five numbers: the first four name a group, and the last is a place in that group. A comparison ends at the first
/// number that differs, so the number that differs most often stands first.
pub type Entry = [u64; 5];

/// An ordered set of entries, sorted by group and within a group by place.
#[derive(Drop)]
pub struct Entries {
    entries: BTreeSet<Key>,
}

impl Model for Entries {
    ghost use Rattle.std.specs.Prelude.{List, ℕ};

    ghost Value = { List (List ℕ) };

    ghost view = { λ e. e.entries.keys };
}

// The first entry that isn't before `from`.
fn first_from(entries: &BTreeSet<Key>, from: Key) -> Option<&Key>
    ensures some { IfSome result (λ entry. IsFirstFrom entries.now from entry.now) }
    ensures none { IfNone result (IsNoneFrom entries.now from) }
{
    entries.range(from..).next()
}

// The last number of the first entry between `from` and `to`, both included. One search finds this entry, or the first
// one after `to`.
fn first_in(entries: &BTreeSet<Key>, from: Key, to: Key) -> Option<u64>
    requires { is_gt (slice_cmp nat_cmp from to) ≡ false }
    ensures some { IfSome result (IsFirstIn entries.now from to) }
    ensures none { IfNone result (IsNoneIn entries.now from to) }
{
    match first_from(entries, from) {
        Some(entry) => {
            if entry.cmp(&to).is_gt() {
                None
            } else {
                Some(entry.numbers[4])
            }
        }
        None => None,
    }
}

impl Entries {
    /// The empty set. No memory is allocated.
    pub fn new(alloc: Global) -> Self
        ensures { result ≡ [] }
    {
        Entries {
            entries: BTreeSet::new(alloc),
        }
    }

    /// Inserts an entry, if it isn't there. An `Err` changes nothing.
    pub fn insert(&mut self, entry: Entry) -> Result<(), Memory>
        ensures ok { OnOk result ((e : List ℕ) → has_entry self.new e ≡ (bytes_eq entry e || has_entry self.old e)) }
        ensures err { OnErr result (self.new ≡ self.old) }
    {
        self.entries.insert(Key { numbers: entry })?;
        Ok(())
    }

    /// Removes an entry, if it is there. No memory is allocated.
    pub fn remove(&mut self, entry: Entry)
        ensures { (e : List ℕ) → has_entry self.new e ≡ (if bytes_eq entry e then false else has_entry self.old e) }
    {
        self.entries.remove(&Key { numbers: entry });
    }

    /// Whether an entry is there.
    pub fn has(&self, entry: Entry) -> bool
        ensures { result ≡ has_entry self.now entry }
    {
        self.entries.contains(&Key { numbers: entry })
    }

    /// The first place of the entry's group, from the entry's own place on.
    pub fn next(&self, entry: Entry) -> Option<u64>
        ensures next { IfSome result (IsNext self.now entry) }
        ensures last { IfNone result (IsLast self.now entry) }
    {
        // For the proof: this read says that the place is at most `u64::MAX`.
        let _holds = entry[4];
        let mut to = entry;
        to[4] = u64::MAX;
        match first_in(&self.entries, Key { numbers: entry }, Key { numbers: to }) {
            Some(place) => Some(place),
            None => None,
        }
    }
}
