// The keys that are tried.
ghost use Rattle.std.specs.Prelude.{◌<◌, IfOk, OnErr, MatchOption, length};
ghost use Rattle.tag_bound.specs.Keys.{IsFirstRepeat, AreDistinct};

use qkd_base::{Items, Memory};
use std::alloc::Global;
use std::collections::BTreeSet;

/// Keys of the hash: elements of the field.
pub type Keys64 = Items<u64>;

/// The first place, counted from 0, of a key that is at an earlier place, too. For an empty list no memory is
/// allocated.
pub fn first_repeat(alloc: Global, keys: &[u64]) -> Result<Option<usize>, Memory>
    ensures first { IfOk result (λ found. MatchOption found (AreDistinct keys.now) (λ place. IsFirstRepeat keys.now place)) }
    ensures err { OnErr result (0 < length keys.now) }
{
    let mut seen = BTreeSet::new(alloc);
    for (place, key) in keys.iter().enumerate() {
        if !seen.insert(*key)? {
            return Ok(Some(place));
        }
    }
    Ok(None)
}
