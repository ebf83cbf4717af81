// How many keys give a difference.
ghost use Rattle.std.specs.Prelude.{◌≡◌, ◌≤◌, ◌<◌, Err, IfOk, MatchResult, length};
ghost use Rattle.tag_bound.specs.Differences.{AreCompared};
ghost use Rattle.tag_bound.specs.KeyLines.{keys_of, Refuses};
ghost use Rattle.tag_bound.specs.Counts.{IsCount, bound_text};

use crate::key_lines::read_keys;
use crate::text_refusal::KeysRefusal;
use crate::{RootCount, RootRefusal, roots_among};
use qkd_base::{Memory, Octets};
use std::alloc::Global;

/// How many of the listed keys give the hashes of two texts a difference, and how many can give it. The texts must be
/// different, and have at most 600 octets each.
pub fn bound_of(
    alloc: Global,
    a: &[u8],
    b: &[u8],
    difference: u64,
    text: &[u8],
) -> Result<RootCount, KeysRefusal>
    requires { AreCompared a.now b.now }
    ensures count { MatchResult result (λ count. IsCount a.now b.now difference (keys_of text.now) count) (λ e. Refuses e (keys_of text.now)) }
    // An empty text of keys needs no memory.
    ensures memory { result ≡ Err KeysRefusal.Memory → 0 < length text.now }
    // The bound on the number of keys that give the difference.
    ensures few { IfOk result (λ count. count.found ≤ count.bound) }
{
    let keys = read_keys(alloc, text)?;
    match roots_among(alloc, a, b, difference, &keys) {
        Ok(count) => Ok(count),
        Err(RootRefusal::Memory) => Err(KeysRefusal::Memory),
        Err(RootRefusal::TooLong) => unreachable!(),
        Err(RootRefusal::Equal) => unreachable!(),
        Err(RootRefusal::Repeated(_)) => unreachable!(),
    }
}

/// The line that says how many keys can give the difference, and how many of those that were tried do.
#[tactic(auto, unfolding(crate::specs::Counts::bound_text))]
pub fn bound_text(alloc: Global, count: RootCount) -> Result<Octets, Memory>
    ensures { IfOk result (λ text. text ≡ bound_text count) }
{
    let line = format!(in alloc; "bound {} found {}\n", count.bound, count.found)?;
    Octets::from_slice(alloc, line.as_str().as_bytes())
}
