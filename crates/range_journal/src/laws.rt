// The laws on which batches octets stand for, stated for octets as values.
ghost use Rattle.std.specs.Prelude.{◌≡◌, ◌⊎◌, ◌∷◌, ◌++◌, [], ℕ, List, length, true};
ghost use Rattle.range_journal.specs.Batches.{Stands, StandsBefore, IsOldOrDoubt};
ghost use Rattle.range_journal.specs.Closing.{HasOtherGate};
ghost use Rattle.range_journal.specs.Header.{new_header, is_blank, IsHeaded, StandsFor};
ghost use Rattle.range_journal.specs.Opening.{IsMadeNew, IsRefusedAt};

/// The octets of a disk stand for at most one list of batches. Octets that are refused stand for none.
pub fn octets_stand_for_one_list()
    ensures behind { (front image : List ℕ) (one other : List (List ℕ)) → Stands front one image → Stands front other image → one ≡ other }
    ensures once { (content : List ℕ) (one other : List (List ℕ)) → StandsFor content one → StandsFor content other → one ≡ other }
    ensures refused { (content : List ℕ) (batches : List (List ℕ)) (place : ℕ) → StandsFor content batches → IsRefusedAt content place → ⊥ }
{}

/// If a disk has a journal's head of 16 octets and batches behind it, it stands for these batches.
pub fn batches_behind_a_header_stand()
    ensures { (front image : List ℕ) (batches : List (List ℕ)) → length front ≡ 16 → IsHeaded front → Stands front batches image → StandsFor image batches }
{}

/// A disk with a batch in doubt behind its batches stands for these batches. Batches with none in doubt also stand with any
/// batch taken to be in doubt. While the gate behind the batches is being closed, a crash leaves the same doubt, or the batch
/// that was in doubt counts.
pub fn a_doubt_stays_or_is_made()
    ensures stands { (front image : List ℕ) (batches doubt : List (List ℕ)) → StandsBefore front batches doubt image → Stands front batches image }
    ensures any { (front image : List ℕ) (batches doubt : List (List ℕ)) → StandsBefore front batches [] image → StandsBefore front batches doubt image }
    ensures closing { (front content image : List ℕ) (batches doubt : List (List ℕ)) → StandsBefore front batches doubt content → HasOtherGate (length front) content image → IsOldOrDoubt front batches doubt image }
{}

/// While a blank disk gets a new head, a crash leaves it blank or with the new head and one octet. Such a disk stands for no
/// batches, unless that octet is an open gate.
pub fn a_new_disk_is_blank_or_has_its_head()
    ensures head { (content image : List ℕ) → IsMadeNew content image → (is_blank image ≡ true) ⊎ ((gate : ℕ) × (image ≡ new_header ++ gate ∷ [])) }
    ensures stands { (content image : List ℕ) → IsMadeNew content image → StandsFor image [] ⊎ (image ≡ new_header ++ 1 ∷ []) }
{}
