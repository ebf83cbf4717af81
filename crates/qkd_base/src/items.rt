// Lists in public types.
ghost use Rattle.std.specs.Prelude.{◌≡◌, ◌<◌, ◌==◌, ◌++◌, ◌∷◌, [], length, slice_get, OnOk, OnErr, IfOk};
ghost use Rattle.std.specs.Option.{option_copied};

use crate::{KeyName, Memory, Replica, SaeNo, Text};
use std::alloc::Global;
use std::marker::Model;

/// A `Vec` that contracts see as a list.
#[derive(Debug, Drop)]
pub struct Items<T> {
    items: Vec<T>,
}

/// A list of bytes.
pub type Octets = Items<u8>;

/// A list of byte lists.
pub type Lists = Items<Octets>;

/// A list of texts.
pub type Texts = Items<Text>;

/// A list of names.
pub type Names = Items<KeyName>;

/// A list of keys, each a name with its bytes.
pub type Keys = Items<(KeyName, Octets)>;

/// A list of applications.
pub type Saes = Items<SaeNo>;

/// A list of acknowledgements that are due. Each is the offset at which a frame was received, with the name of the
/// frame's fact.
pub type Dues = Items<(u64, KeyName)>;

/// A list of header fields, each a name with its value.
pub type Fields = Items<(Octets, Octets)>;

impl<T> Model for Items<T> {
    ghost use Rattle.std.specs.Prelude.{List};

    ghost Value = { List T };

    ghost view = { λ o. o.items.items };
}

impl<T> Items<T> {
    /// The empty list. No memory is allocated.
    pub fn new(alloc: Global) -> Self
        ensures { result ≡ [] }
    {
        Items {
            items: Vec::new(alloc),
        }
    }

    /// The list of a `Vec`'s items. No memory is allocated.
    pub fn from_vec(items: Vec<T>) -> Self
        ensures { result ≡ items.items }
    {
        Items { items }
    }

    /// The `Vec` of a list's items. No memory is allocated.
    pub fn into_vec(self) -> Vec<T>
        ensures { result.items ≡ self }
    {
        let Items { items } = self;
        items
    }

    /// The items in order.
    pub fn as_slice(&self) -> &[T]
        ensures { result.now ≡ self.now }
    {
        self.items.as_slice()
    }

    /// How many items there are.
    pub fn len(&self) -> usize
        ensures { result ≡ length self.now }
    {
        self.items.len()
    }

    /// Whether the list is empty.
    pub fn is_empty(&self) -> bool
        ensures { result ≡ (length self.now == 0) }
    {
        self.items.is_empty()
    }

    /// The item at a place, counted from 0.
    pub fn get(&self, place: usize) -> Option<&T>
        ensures { option_copied result ≡ slice_get self.now place }
    {
        self.items.get(place)
    }
}

impl<T: Drop> Items<T> {
    /// Adds an item at the end. An `Err` changes nothing.
    pub fn push(&mut self, item: T) -> Result<(), Memory>
        ensures ok { OnOk result (self.new ≡ self.old ++ item ∷ []) }
        ensures err { OnErr result (self.new ≡ self.old) }
    {
        self.items.push(item)?;
        Ok(())
    }
}

impl Items<u8> {
    /// A copy of these bytes.
    pub fn from_slice(alloc: Global, bytes: &[u8]) -> Result<Self, Memory>
        ensures { IfOk result (λ o. o ≡ bytes.now) }
    {
        let items = Vec::from_slice(alloc, bytes)?;
        Ok(Items { items })
    }

    /// Adds bytes at the end. An `Err` changes nothing.
    pub fn extend(&mut self, bytes: &[u8]) -> Result<(), Memory>
        ensures ok { OnOk result (self.new ≡ self.old ++ bytes.now) }
        ensures err { OnErr result (self.new ≡ self.old) }
    {
        self.items.extend_from_slice(bytes)?;
        Ok(())
    }
}

impl<T: Replica + Drop> Replica for Items<T> {
    fn copy(&self) -> Result<Self, Memory> {
        let mut items = Vec::with_capacity(*self.items.allocator(), self.items.len())?;
        for item in &self.items {
            let same = item.copy()?;
            items.push(same)?;
        }
        Ok(Items { items })
    }
}

impl<A: Replica + Drop, B: Replica + Drop> Replica for (A, B) {
    fn copy(&self) -> Result<Self, Memory> {
        let first = self.0.copy()?;
        let second = self.1.copy()?;
        Ok((first, second))
    }
}

impl Replica for u8 {
    fn copy(&self) -> Result<Self, Memory> {
        Ok(*self)
    }
}

impl Replica for u64 {
    fn copy(&self) -> Result<Self, Memory> {
        Ok(*self)
    }
}

impl Replica for KeyName {
    fn copy(&self) -> Result<Self, Memory> {
        Ok(*self)
    }
}

impl Replica for SaeNo {
    fn copy(&self) -> Result<Self, Memory> {
        Ok(*self)
    }
}
