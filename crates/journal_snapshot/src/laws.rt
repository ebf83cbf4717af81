// Laws on the batches that a disk's octets stand for.
ghost use Rattle.std.specs.Prelude.{◌≡◌, ◌≢◌, ◌⊎◌, ◌∷◌, ◌++◌, [], ℕ, true, false, List};
ghost use Rattle.range_journal.specs.Header.{new_header, is_blank};
ghost use Rattle.range_journal.specs.Opening.{IsMadeNew};
ghost use Rattle.journal_snapshot.specs.declared.live.Live.{Live as LiveArea};
ghost use Rattle.journal_snapshot.specs.Standing.{HasBatches, Holds, HoldsOldOrDoubt, StandsFor, new_live};
ghost use Rattle.journal_snapshot.specs.Opening.{IsClosing, IsOpened, IsRefusedAt};

/// The octets of a disk stand for at most one list of batches. It is the list that they hold in their live area. Opening the
/// disk gives this list, and also this live area unless the disk is blank. Octets that are refused stand for no list.
pub fn octets_stand_for_one_list()
    ensures holds { (live : LiveArea) (batches : List (List ℕ)) (image : List ℕ) → HasBatches live batches image → StandsFor image batches }
    ensures opened { (read : List ℕ) (live : LiveArea) (batches : List (List ℕ)) → IsOpened read live batches → StandsFor read batches }
    ensures once { (content : List ℕ) (one other : List (List ℕ)) → StandsFor content one → StandsFor content other → one ≡ other }
    ensures again { (read : List ℕ) (live other : LiveArea) (batches more : List (List ℕ)) → IsOpened read live batches → HasBatches other more read → (batches ≡ more) × ((is_blank read ≡ true) ⊎ (live ≡ other)) }
    ensures refused { (content : List ℕ) (batches : List (List ℕ)) (place : ℕ) → StandsFor content batches → IsRefusedAt content place → ⊥ }
{}

/// While the gate after the last batch is being closed, the disk stands for the same batches, unless that gate reads as open.
pub fn a_gate_that_is_closed_adds_nothing()
    ensures { (content image : List ℕ) (batches : List (List ℕ)) → StandsFor content batches → (c : IsClosing content image) → c.gate.other ≢ 1 → StandsFor image batches }
{}

/// Batches that stand before a batch in doubt can be read. If an image holds batches with none in doubt, it also holds them
/// with any batch in doubt. While the gate after the batches is being closed, the image holds them, with or without the batch
/// in doubt, and it isn't blank.
pub fn a_doubt_stays_or_is_made()
    ensures reads { (live : LiveArea) (batches doubt : List (List ℕ)) (image : List ℕ) → Holds live batches doubt image → HasBatches live batches image }
    ensures any { (live : LiveArea) (batches doubt : List (List ℕ)) (image : List ℕ) → Holds live batches [] image → Holds live batches doubt image }
    ensures closing { (live : LiveArea) (batches doubt : List (List ℕ)) (content image : List ℕ) → Holds live batches doubt content → IsClosing content image → HoldsOldOrDoubt live batches doubt image }
    ensures plain { (content image : List ℕ) → IsClosing content image → is_blank image ≡ false }
{}

/// While a blank disk gets the head of a new journal, its image stands for no batches, or it is that head with an open gate.
/// The head with a closed gate holds a journal without batches. Closing the gate adds no octet.
pub fn a_new_disk_is_blank_or_has_its_head()
    ensures stands { (content image : List ℕ) → IsMadeNew content image → StandsFor image [] ⊎ (image ≡ new_header ++ 1 ∷ []) }
    ensures closed { Holds new_live [] [] (new_header ++ 0 ∷ []) }
    ensures closing { (gate : ℕ) (image : List ℕ) → IsClosing (new_header ++ gate ∷ []) image → (other : ℕ) × (image ≡ new_header ++ other ∷ []) }
{}
