// The laws of this crate: each is the contract of a function that does nothing.
ghost use Rattle.run_audit.specs.Laws.{FramesAreDisjoint, FramesCarryOne, NamesAreTakenOnce, KeysAreHandedOnce, LedgersAreTrue};

/// In a sound report no byte of a lane masks two different frames: two frames of a lane have the same offset and length,
/// or no byte in common.
pub fn law_frames_are_disjoint()
    ensures { FramesAreDisjoint }
{}

/// In a sound report two passes tell one kind and one name of two frames of a lane with one offset, if both were sent
/// before.
pub fn law_frames_carry_one()
    ensures { FramesCarryOne }
{}

/// In a sound report a node takes a name at most once as a fact, and at most once as an acknowledgement.
pub fn law_names_are_taken_once()
    ensures { NamesAreTakenOnce }
{}

/// In a sound report all bytes told of a key or a chunk are equal, and no application gets it twice. A key has one master.
/// It goes only to that master and to applications for which the master may have keys.
pub fn law_keys_are_handed_once()
    ensures { KeysAreHandedOnce }
{}

/// In a sound report the counts of each ledger add up, and the ledger is true of the items before it.
pub fn law_ledgers_are_true()
    ensures { LedgersAreTrue }
{}
