// Tables whose keys are a few numbers.
ghost use Rattle.std.specs.Prelude.{◌≡◌, ℕ, List, Some, OnOk, if◌then◌else◌, min, ◌+◌, ◌-◌, ◌^◌};
ghost use Rattle.std.specs.Option.{option_copied};
ghost use Rattle.std.specs.Str.{bytes_eq};
ghost use Rattle.run_audit.specs.Table.{at};

use qkd_base::Memory;
use std::collections::BTreeMap;

/// The numbers that a table's key is made of.
pub type Key = [u64; 6];

/// The value under a key, if there is one.
pub fn find<V>(table: &BTreeMap<Key, V>, key: Key) -> Option<&V>
    ensures { option_copied result ≡ at table.now key }
{
    table.get(&key)
}

/// Puts a value under a key in place of an earlier one. The only error is that memory runs out.
pub fn put<V: Drop>(table: &mut BTreeMap<Key, V>, key: Key, value: V) -> Result<(), Memory>
    ensures { OnOk result ((k : List ℕ) → at table.new k ≡ (if bytes_eq key k then Some value else at table.old k)) }
{
    table.insert(key, value)?;
    Ok(())
}

/// A count, one higher if there is one more. It never exceeds 2^32 - 1.
pub fn counted(count: u32, more: bool) -> u32
    ensures { result ≡ (if more then min (count + 1) (2 ^ 32 - 1) else count) }
{
    if more { count.saturating_add(1) } else { count }
}
