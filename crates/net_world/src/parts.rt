// Moving items between lists that have room for them.
ghost use Rattle.std.specs.Prelude.{◌≡◌, ◌+◌, ◌≤◌, ◌<◌, [], ◌∷◌, ◌++◌, take, drop, vec_len, vec_capacity};

/// Removes the first item of a list and returns it. The list's capacity stays.
pub fn take_first<T>(from: &mut Vec<T>) -> T
    requires { 0 < vec_len from.old }
    ensures items { from.old.items ≡ result ∷ from.new.items }
    ensures len { vec_len from.new + 1 ≡ vec_len from.old }
    ensures room { vec_capacity from.new ≡ vec_capacity from.old }
{
    from.remove(0)
}

/// Inserts an item at the front of a list that has room for it.
pub fn put_first<T: Drop>(into: &mut Vec<T>, item: T)
    requires { vec_len into.old < vec_capacity into.old }
    ensures items { into.new.items ≡ item ∷ into.old.items }
    ensures len { vec_len into.new ≡ vec_len into.old + 1 }
    ensures room { vec_capacity into.new ≡ vec_capacity into.old }
{
    let _ = into.insert(0, item);
}

/// Moves the first `count` items of a list to the end of another one.
pub fn take_some<T: Drop>(from: &mut Vec<T>, count: usize, into: &mut Vec<T>)
    requires there { count ≤ vec_len from.old }
    requires room { vec_len into.old + count ≤ vec_capacity into.old }
    ensures items { into.new.items ≡ into.old.items ++ take count from.old.items }
    ensures rest { from.new.items ≡ drop count from.old.items }
    ensures len { vec_len into.new ≡ vec_len into.old + count }
    ensures left { vec_len from.new + count ≡ vec_len from.old }
    ensures room { vec_capacity from.new ≡ vec_capacity from.old }
{
    for _ in 0..count {
        let item = take_first(from);
        into.push_reserved(item);
    }
}

/// Moves all items of a list to the front of another one.
pub fn put_all<T: Drop>(from: &mut Vec<T>, into: &mut Vec<T>)
    requires room { vec_len from.old + vec_len into.old ≤ vec_capacity into.old }
    ensures items { into.new.items ≡ from.old.items ++ into.old.items }
{
    for _ in 0..from.len() {
        let item = from.take_last();
        put_first(into, item);
    }
}
