// Laws of merges: the history of one machine with many callers is a merge of the callers' calls, and what merges keep.
ghost use Rattle.std.specs.Prelude.{◌≡◌, ℕ, Bool, List, [], ◌∷◌, ◌++◌, map, length};
ghost use Rattle.std.specs.List.{list_all, count_by, AllByRecursion};
ghost use mathlib.Core.List.{IsPrefix};
ghost use Rattle.net_model.specs.BlockOrder.{IsMerge};
ghost use Rattle.turnstile.specs.Views.{Stands, IsWhole};
ghost use Rattle.shared_objects.specs.Making.{IsMade};
ghost use Rattle.shared_objects.specs.Rising.{Rises, entries, placed_from, together};

/// A call is added to the history behind all earlier calls of its caller. So a caller's places in the history rise from call to
/// call.
pub fn law_a_call_keeps_rising<E>()
    ensures { (calls : List (ℕ × E)) (seen before : List E) (place : ℕ) (entry : E) → Rises calls → Stands calls seen → IsPrefix seen before →
        length before ≡ place → Rises (calls ++ (place, entry) ∷ []) }
{}

/// Let each caller's places rise, and let the calls of all callers together be the entries of the history, each exactly once.
/// Then the history is a merge of the callers' calls.
pub fn law_calls_are_a_merge<E>()
    ensures { (parts : List (List (ℕ × E))) (log : List E) → AllByRecursion Rises parts → IsWhole (together parts) log → IsMerge (map entries parts) log }
{}

/// Let each caller's places rise, and let the calls of all callers together be the entries of the history, each exactly once.
/// Then the list of all entries with their places is a merge of the callers' lists of calls with places.
pub fn law_placed_calls_are_a_merge<E>()
    ensures { (parts : List (List (ℕ × E))) (log : List E) → AllByRecursion Rises parts → IsWhole (together parts) log → IsMerge parts (placed_from 0 log) }
{}

/// If a list is a merge of parts, then applying a function to all members gives a merge of the parts with the function applied.
pub fn law_merge_is_mapped<A, B>()
    ensures { (f : A → B) (parts : List (List A)) (out : List A) → IsMerge parts out → IsMerge (map (map f) parts) (map f out) }
{}

/// If a list is a merge of parts that were made by a function, then the function makes it from a merge of the lists that it was
/// applied to.
pub fn law_merge_is_of_what_it_is_made<A, B>()
    ensures { (made : B → A) (kept : List (List B)) (out : List A) → IsMerge (map (map made) kept) out → IsMade made kept out }
{}

/// Two merges of the same parts have the same length, and the same number of members of each pass a test.
pub fn law_merges_count_the_same<A>()
    ensures { (parts : List (List A)) (out other : List A) → IsMerge parts out → IsMerge parts other →
        (length out ≡ length other) × ((p : A → Bool) → count_by p out ≡ count_by p other) }
{}

/// All members of a merge pass a test exactly where all members of all its parts pass it.
pub fn law_merge_passes_as_its_parts<A>()
    ensures { (p : A → Bool) (parts : List (List A)) (out : List A) → IsMerge parts out → list_all p out ≡ list_all (λ xs. list_all p xs) parts }
{}
