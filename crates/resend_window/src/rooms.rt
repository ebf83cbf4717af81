// Room in lists with empty slots.
ghost use Rattle.std.specs.Prelude.{◌≡◌, ◌+◌, ◌-◌, ◌/◌, ◌≤◌, [], ◌∷◌, nat_le, nat_lt, length, OnOk, vec_len, vec_capacity};
ghost use Rattle.resend_window.specs.Kept.{somes};

use qkd_base::Memory;

/// Whether the list has room for `more` further items.
pub fn has_room<T>(list: &Vec<Option<T>>, more: usize) -> bool
    ensures { result ≡ nat_le more (vec_capacity list.now - vec_len list.now) }
{
    more <= list.capacity() - list.len()
}

// The number of items in a slot.
fn filled<T>(slot: &Option<T>) -> usize
    ensures { result ≡ length (somes (slot.now ∷ [])) }
{
    match slot {
        None => 0,
        Some(_) => 1,
    }
}

// The number of items of a list, without its empty slots.
fn count_items<T>(list: &[Option<T>]) -> usize
    ensures { result ≡ length (somes list.now) }
{
    let mut count = 0usize;
    for slot in list {
        count += filled(slot);
    }
    count
}

/// Whether more than a quarter of a list's slots are empty.
pub fn is_sparse<T>(list: &[Option<T>]) -> bool
    ensures { result ≡ nat_lt (length list.now / 4) (length list.now - length (somes list.now)) }
{
    list.len() / 4 < list.len() - count_items(list)
}

/// Removes the empty slots of a list. It allocates nothing.
pub fn compact<T: Drop>(list: &mut Vec<Option<T>>)
    ensures items { somes list.new.items ≡ somes list.old.items }
    ensures spare { vec_capacity list.old - vec_len list.old ≤ vec_capacity list.new - vec_len list.new }
{
    list.retain(|place| place.is_some());
}

/// Reserves memory for `more` further items, and for at least as many as the list has, so that it grows seldom. An `Err`
/// changes nothing.
pub fn reserve<T>(list: &mut Vec<Option<T>>, more: usize) -> Result<(), Memory>
    ensures items { list.new.items ≡ list.old.items }
    ensures spare { vec_capacity list.old - vec_len list.old ≤ vec_capacity list.new - vec_len list.new }
    ensures ok { OnOk result (more ≤ vec_capacity list.new - vec_len list.new) }
{
    let size = list.len();
    list.reserve(if size < more { more } else { size })?;
    Ok(())
}
