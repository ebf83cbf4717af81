// The set of pairs of a key and an application that has got it.
ghost use Rattle.std.specs.Prelude.{◌≡◌, ◌+◌, ◌<◌, ◌≤◌, ◌==◌, ◌&&◌, ◌∷◌, ◌++◌, [], false, IsTrue, OnOk, OnErr, length, slice_get, Some};
ghost use Rattle.qkd_base.specs.Name.{name_eq};
ghost use Rattle.net_model.specs.Table.{was_handed};
ghost use Rattle.net_model.specs.Fold.{marked};
ghost use Rattle.end_store.specs.Marked.{AreMarked, mark_entry};

use ordered_set::{Entries, Entry};
use qkd_base::{KeyName, Memory, SaeNo};
use relay_core::origin_number;
use std::alloc::Global;
use std::marker::Model;

/// Pairs of a name and an application, in the order in which they were added, each once. A pair says that the
/// application has got the key of this name, or has closed the stream of this name.
#[derive(Drop)]
pub struct Marks {
    pairs: Vec<(KeyName, SaeNo)>,
    index: Entries,
    // The number of leading pairs that are in the index. It lags behind when memory runs out.
    listed: usize,
}

impl Model for Marks {
    ghost use Rattle.std.specs.Prelude.{◌-◌, vec_capacity, vec_len};
    ghost use Rattle.end_store.specs.Marked.{Marked, AreMarked};

    ghost Value = { Marked };

    ghost view = { λ m. record { pairs = m.pairs.items; spare = vec_capacity m.pairs - vec_len m.pairs } };

    ghost invariant = { λ m. AreMarked m.pairs.items m.index m.listed };
}

// The index entry of a pair. The count stands first, since it differs most and comparisons then end early.
fn mark_entry(name: KeyName, sae: SaeNo) -> Entry
    ensures { result ≡ mark_entry name sae }
{
    [
        name.count(),
        origin_number(name) as u64,
        sae.get() as u64,
        0,
        0,
    ]
}

// Whether a pair is in this slice.
fn is_among(pairs: &[(KeyName, SaeNo)], name: KeyName, sae: SaeNo) -> bool
    ensures { result ≡ was_handed pairs.now name sae }
{
    pairs.iter().any(|pair| pair.0 == name && pair.1 == sae)
}

// Adds the pair at a place to the index. False if memory runs out.
fn list_pair(index: &mut Entries, pairs: &[(KeyName, SaeNo)], place: usize) -> bool
    requires within { place < length pairs.now }
    requires marked { AreMarked pairs.now index.old place }
    ensures done { IsTrue result → AreMarked pairs.now index.new (place + 1) }
    ensures not_done { result ≡ false → index.new ≡ index.old }
{
    let pair = pairs[place];
    match index.insert(mark_entry(pair.0, pair.1)) {
        Ok(()) => true,
        Err(_) => false,
    }
}

// Adds the pairs from a place on to the index, until memory runs out. Returns the number of leading pairs that are
// listed then.
fn list_pairs(index: &mut Entries, pairs: &[(KeyName, SaeNo)], count: usize) -> usize
    requires { AreMarked pairs.now index.old count }
    ensures { AreMarked pairs.now index.new result }
{
    let mut listed = count;
    while listed < pairs.len() {
        if !list_pair(index, pairs, listed) {
            return listed;
        }
        listed += 1;
    }
    listed
}

impl Marks {
    /// The empty set of pairs. It allocates nothing.
    pub fn new(alloc: Global) -> Self
        ensures { result.pairs ≡ [] }
    {
        Marks {
            pairs: Vec::new(alloc),
            index: Entries::new(alloc),
            listed: 0,
        }
    }

    /// All pairs, in the order in which they were added.
    pub fn as_slice(&self) -> &[(KeyName, SaeNo)]
        ensures { result.now ≡ self.now.pairs }
    {
        &self.pairs
    }

    /// Whether a pair is in the set.
    pub fn has(&self, name: KeyName, sae: SaeNo) -> bool
        ensures { result ≡ was_handed self.now.pairs name sae }
    {
        self.index.has(mark_entry(name, sae)) || is_among(&self.pairs[self.listed..], name, sae)
    }

    /// Reserves memory for `more` further pairs. An `Err` changes nothing.
    pub fn room(&mut self, more: u32) -> Result<(), Memory>
        ensures pairs { self.new.pairs ≡ self.old.pairs }
        ensures ok { OnOk result (more ≤ self.new.spare) }
        ensures err { OnErr result (self.new ≡ self.old) }
    {
        self.pairs.reserve(more as usize)?;
        Ok(())
    }

    /// Adds a pair, unless it is in the set already. It needs no more memory than was reserved.
    pub fn mark(&mut self, name: KeyName, sae: SaeNo)
        requires room { 0 < self.old.spare }
        ensures pairs { self.new.pairs ≡ marked self.old.pairs name sae }
        ensures spare { self.old.spare ≤ self.new.spare + 1 }
    {
        if !self.has(name, sae) {
            self.push(name, sae);
        }
    }

    // Adds a pair at the end.
    fn push(&mut self, name: KeyName, sae: SaeNo)
        requires room { 0 < self.old.spare }
        ensures pairs { self.new.pairs ≡ self.old.pairs ++ (name, sae) ∷ [] }
        ensures spare { self.old.spare ≡ self.new.spare + 1 }
    {
        self.pairs.push_reserved((name, sae));
        self.listed = list_pairs(&mut self.index, &self.pairs, self.listed);
    }
}
