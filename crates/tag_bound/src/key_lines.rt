// The keys of a text, one on each line.
ghost use Rattle.std.specs.Prelude.{◌≡◌, ◌+◌, ◌≤◌, ◌<◌, ℕ, [], ◌∷◌, ◌++◌, length, not, true, false, Some, None, Ok, Err, IfOk, IfErr, OnOk, MatchResult};
ghost use Rattle.std.specs.BTreeSet.{contains};
ghost use Rattle.std.specs.Ordering.{nat_cmp};
ghost use Rattle.tag_bound.specs.Words.{number_of};
ghost use Rattle.tag_bound.specs.KeyLines.{is_among, key_behind, keys_of, IsSeen, Takes, Refuses};

use crate::Keys64;
use crate::lines::first_line;
use crate::text_refusal::KeysRefusal;
use crate::words::number;
use qkd_base::Memory;
use std::alloc::Global;
use std::collections::BTreeSet;

/// How many keys a text may list.
pub const KEY_LIMIT: usize = 10000;

// Adds a key, if it isn't there yet. The answer is whether it was added. The set holds the keys of the list.
fn add(keys: &mut Keys64, seen: &mut BTreeSet<u64>, key: u64) -> Result<bool, Memory>
    requires { IsSeen (contains nat_cmp seen.old) keys.old }
    ensures added { IfOk result (λ added. added ≡ not (is_among keys.old key)) }
    ensures keys { IfOk result (λ added. added ≡ true → keys.new ≡ keys.old ++ key ∷ []) }
    ensures seen { IfOk result (λ added. added ≡ true → IsSeen (contains nat_cmp seen.new) keys.new) }
{
    if seen.insert(key)? {
        keys.push(key)?;
        Ok(true)
    } else {
        Ok(false)
    }
}

// Reads a line and adds its key, after lines with these keys.
fn take_key(keys: &mut Keys64, seen: &mut BTreeSet<u64>, line: &[u8]) -> Result<(), KeysRefusal>
    requires seen { IsSeen (contains nat_cmp seen.old) keys.old }
    requires few { length keys.old ≤ KEY_LIMIT }
    ensures takes { Takes keys.old keys.new (key_behind keys.old (number_of line.now)) result }
    ensures seen { OnOk result (IsSeen (contains nat_cmp seen.new) keys.new) }
    ensures few { OnOk result (length keys.new ≤ KEY_LIMIT) }
{
    let refusal = KeysRefusal::BadLine(keys.len() as u32 + 1);
    let Some(key) = number(line) else {
        return Err(refusal);
    };
    if keys.len() == KEY_LIMIT || !add(keys, seen, key)? {
        return Err(refusal);
    }
    Ok(())
}

/// Reads the keys of a text: one on each line, in 16 hexadecimal digits of either case. No two may be equal, and there
/// may be at most 10,000. A line ends in LF, or in CR and LF. The last line may have no end.
#[tactic(auto, unfolding(crate::specs::KeyLines::keys_of))]
pub fn read_keys(alloc: Global, text: &[u8]) -> Result<Keys64, KeysRefusal>
    ensures means { MatchResult result (λ keys. keys_of text.now ≡ Ok keys) (λ e. Refuses e (keys_of text.now)) }
    // An empty text needs no memory.
    ensures memory { result ≡ Err KeysRefusal.Memory → 0 < length text.now }
{
    let mut keys = Keys64::new(alloc);
    let mut seen = BTreeSet::new(alloc);
    let mut rest = text;
    while let Some((line, behind)) = first_line(rest) {
        take_key(&mut keys, &mut seen, line)?;
        rest = behind;
    }
    Ok(keys)
}
