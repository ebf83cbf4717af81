// An index from groups to places of a list.
ghost use Rattle.std.specs.Prelude.{◌≡◌, ◌<◌, ◌^◌, ◌∷◌, ◌++◌, [], ℕ, List, true, false, IsTrue, IfSome, IfNone, length, slice_set, ◌||◌, if◌then◌else◌};
ghost use Rattle.std.specs.List.{list_any};
ghost use Rattle.std.specs.Str.{bytes_eq};
ghost use Rattle.ordered_set.specs.Entries.{has_entry, entry_at, IsNextIn, IsLastIn};
ghost use Rattle.resend_window.specs.Catalogued.{Catalogues, groups_at};

use ordered_set::{Entries, Entry};
use std::alloc::Global;

/// The name of a group of places, as four numbers.
pub type Group = [u64; 4];

/// An index from groups to places. It is whole, unless memory ran out.
#[derive(Drop)]
pub struct Catalogue {
    pub entries: Entries,
    pub is_whole: bool,
}

// The index entry of a place in a group.
fn entry(group: &Group, place: usize) -> Entry
    ensures { result ≡ entry_at group.now place }
{
    let [a, b, c, d] = *group;
    [a, b, c, d, place as u64]
}

// Adds a place to a group. False if memory runs out.
fn insert(entries: &mut Entries, group: &Group, place: usize) -> bool
    ensures { IsTrue result → (e : List ℕ) → has_entry entries.new e ≡ (bytes_eq (entry_at group.now place) e || has_entry entries.old e) }
{
    match entries.insert(entry(group, place)) {
        Ok(()) => true,
        Err(_) => false,
    }
}

// Removes a place from a group.
fn take_out(entries: &mut Entries, group: &Group, place: usize)
    ensures { (e : List ℕ) → has_entry entries.new e ≡ (if bytes_eq (entry_at group.now place) e then false else has_entry entries.old e) }
{
    entries.remove(entry(group, place));
}

impl Catalogue {
    /// The empty index. It allocates nothing.
    pub fn new(alloc: Global) -> Self
        ensures { Catalogues [] result }
    {
        Catalogue {
            entries: Entries::new(alloc),
            is_whole: true,
        }
    }

    /// Adds the place after the last one to two groups.
    pub fn add(&mut self, first: &Group, second: &Group, place: usize)
        ensures { (keys : List (List (List ℕ))) → length keys ≡ place → Catalogues keys self.old → Catalogues (keys ++ (first.now ∷ second.now ∷ []) ∷ []) self.new }
    {
        if !insert(&mut self.entries, first, place) {
            self.is_whole = false;
            return;
        }
        if !insert(&mut self.entries, second, place) {
            self.is_whole = false;
        }
    }

    /// Adds the place after the last one to a group.
    pub fn append(&mut self, group: &Group, place: usize)
        ensures { (keys : List (List (List ℕ))) → length keys ≡ place → Catalogues keys self.old → Catalogues (keys ++ (group.now ∷ []) ∷ []) self.new }
    {
        if !insert(&mut self.entries, group, place) {
            self.is_whole = false;
        }
    }

    /// Removes a place from its two groups.
    pub fn remove(&mut self, first: &Group, second: &Group, place: usize)
        ensures { (keys : List (List (List ℕ))) → groups_at keys place ≡ first.now ∷ second.now ∷ [] → Catalogues keys self.old → Catalogues (slice_set keys place []) self.new }
    {
        take_out(&mut self.entries, first, place);
        take_out(&mut self.entries, second, place);
    }

    /// Adds a place to one more group.
    pub fn join(&mut self, group: &Group, place: usize)
        ensures { (keys : List (List (List ℕ))) → place < length keys → Catalogues keys self.old → Catalogues (slice_set keys place (group.now ∷ groups_at keys place)) self.new }
    {
        if !insert(&mut self.entries, group, place) {
            self.is_whole = false;
        }
    }

    /// Removes a place from the first of its groups.
    pub fn leave(&mut self, group: &Group, place: usize)
        ensures { (keys : List (List (List ℕ))) (rest : List (List ℕ)) → groups_at keys place ≡ group.now ∷ rest → list_any (bytes_eq group.now) rest ≡ false → Catalogues keys self.old → Catalogues (slice_set keys place rest) self.new }
    {
        take_out(&mut self.entries, group, place);
    }

    /// The first place of a group that isn't below `from`.
    pub fn next(&self, group: &Group, from: usize) -> Option<u64>
        ensures next { IfSome result (IsNextIn self.now.entries group.now from) }
        ensures last { IfNone result (IsLastIn self.now.entries group.now from) }
    {
        match self.entries.next(entry(group, from)) {
            Some(place) => Some(place),
            None => None,
        }
    }
}
