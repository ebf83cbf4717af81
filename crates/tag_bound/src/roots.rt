// Counting the keys that give two texts a chosen difference of hashes.
ghost use Rattle.std.specs.Prelude.{◌≡◌, ℕ, ◌<◌, ◌≤◌, ◌↔◌, IfOk, IsOk, length};
ghost use Rattle.wc_tags.specs.Tag.{blocks_of};
ghost use Rattle.tag_bound.specs.Keys.{IsFirstRepeat, AreDistinct};
ghost use Rattle.tag_bound.specs.Differences.{count_giving, most_blocks, IsTooLong, AreCompared};

use crate::keys::{Keys64, first_repeat};
use crate::refusal::RootRefusal;
use std::alloc::Global;
use wc_tags::hash;

/// The greatest length of a text that is compared, in octets.
const LONGEST: usize = 600;

/// How many keys gave a difference, and how many can give it.
#[derive(Clone, Copy, Debug, PartialEq, Eq)]
pub struct RootCount {
    /// How many blocks the text with more of them has, length block included: 2 to 76. At most this many keys can give
    /// the difference.
    pub bound: u32,
    /// How many of the keys gave the difference. This is at most `bound`.
    pub found: u32,
}

/// Counts the keys under which the hashes of two different texts have this difference, which is their sum in the field.
/// A text may have at most 600 octets, and no key may occur twice. The call allocates memory for the keys that it has
/// seen, and frees it.
///
/// That only few keys give a difference is why a tag protects its text (Wegman and Carter, New hash functions and their
/// use in authentication and set equality, 1981).
pub fn roots_among(
    alloc: Global,
    a: &[u8],
    b: &[u8],
    difference: u64,
    keys: &Keys64,
) -> Result<RootCount, RootRefusal>
    ensures too_long { (result ≡ Err RootRefusal.TooLong) ↔ IsTooLong a.now b.now }
    ensures equal { (result ≡ Err RootRefusal.Equal) ↔ (¬ (IsTooLong a.now b.now) × (a.now ≡ b.now)) }

    // Memory can run out only if the texts can be compared and there is a key.
    ensures memory { result ≡ Err RootRefusal.Memory → AreCompared a.now b.now × (0 < length keys.now) }
    ensures repeated { (place : ℕ) → (result ≡ Err (RootRefusal.Repeated place)) ↔ (AreCompared a.now b.now × IsFirstRepeat keys.now place × ¬ (result ≡ Err RootRefusal.Memory)) }
    ensures counted { IsOk result ↔ (AreCompared a.now b.now × AreDistinct keys.now × ¬ (result ≡ Err RootRefusal.Memory)) }
    ensures bound { IfOk result (λ count. count.bound ≡ most_blocks a.now b.now) }
    ensures found { IfOk result (λ count. count.found ≡ count_giving a.now b.now difference keys.now) }

    // The bound on the number of keys that give the difference.
    ensures few { IfOk result (λ count. count.found ≤ count.bound) }
{
    if a.len() > LONGEST || b.len() > LONGEST {
        return Err(RootRefusal::TooLong);
    }
    if a == b {
        return Err(RootRefusal::Equal);
    }
    if let Some(place) = first_repeat(alloc, keys.as_slice())? {
        return Err(RootRefusal::Repeated(place));
    }
    Ok(count(a, b, difference, keys.as_slice()))
}

// The count for two different texts and keys of which no two are equal.
fn count(a: &[u8], b: &[u8], difference: u64, keys: &[u64]) -> RootCount
    requires texts { AreCompared a.now b.now }
    requires keys { AreDistinct keys.now }
    ensures bound { result.bound ≡ most_blocks a.now b.now }
    ensures found { result.found ≡ count_giving a.now b.now difference keys.now }
    ensures few { result.found ≤ result.bound }
{
    RootCount {
        bound: block_count(a).max(block_count(b)),
        found: giving(a, b, difference, keys) as u32,
    }
}

// How many blocks a text has, length block included.
fn block_count(text: &[u8]) -> u32
    requires { length text.now ≤ 600 }
    ensures { result ≡ length (blocks_of text.now) }
{
    text.len().div_ceil(8) as u32 + 1
}

// How many of the keys give the difference.
fn giving(a: &[u8], b: &[u8], difference: u64, keys: &[u64]) -> usize
    ensures { result ≡ count_giving a.now b.now difference keys.now }
{
    keys.iter()
        .filter(|key| hash(**key, a) ^ hash(**key, b) == difference)
        .count()
}
