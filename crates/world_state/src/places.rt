// Reading an item of a list.
ghost use Rattle.std.specs.Prelude.{◌≡◌, ◌≤◌, length, slice_get, Some, MatchOption};

/// The item at a place, if there is one.
pub fn at<T>(items: &Vec<T>, place: usize) -> Option<&T>
    ensures { MatchOption result (length items.now.items ≤ place) (λ item. slice_get items.now.items place ≡ Some item.now) }
{
    items.get(place)
}
