// Each manager notes what became of its frames.
ghost use Rattle.std.specs.Prelude.{◌≡◌, OnOk, OnErr};
ghost use Rattle.net_model.specs.World.{Network, World};
ghost use Rattle.world_state.specs.Armed.{most_armed};
ghost use Rattle.par_frames.specs.NodeFrames.{MayNoteAll};
ghost use Rattle.par_frames.specs.FrameNoting.{MayNoteOne, NotesOne, StaysOne, NotesAll, EndsNotes};
ghost use Rattle.world_state.specs.Outside.{outside};

use disk_model::Disk;
use net_model::Placings;
use qkd_base::Memory;
use source_devices::{Device, Entropy, Wire};
use world_state::State;

// The manager of one node notes what became of its frames. An `Err` changes nothing.
fn note<K: Disk + Drop, Q: Device + Drop, E: Entropy + Drop, X: Wire + Drop>(
    state: &mut State<K, Q, E, X>,
    node: usize,
    placings: Placings,
) -> Result<(), Memory>
    requires asked { (net : Network) × (w : World) × MayNoteOne (outside K.Disk Q.Device E.Entropy X.Wire) state.old net w node placings }
    ensures site { state.new.site ≡ state.old.site }
    ensures armed { most_armed K.Disk state.new.posts.items ≡ most_armed K.Disk state.old.posts.items }
    ensures ok { OnOk result ((net : Network) (w : World) → MayNoteOne (outside K.Disk Q.Device E.Entropy X.Wire) state.old net w node placings → NotesOne (outside K.Disk Q.Device E.Entropy X.Wire) state.old state.new net w node) }
    ensures err { OnErr result ((net : Network) (w : World) → MayNoteOne (outside K.Disk Q.Device E.Entropy X.Wire) state.old net w node placings → StaysOne (outside K.Disk Q.Device E.Entropy X.Wire) state.old state.new net w) }
{
    let up = state.up;
    match state.posts.get_mut(node) {
        None => Ok(()),
        Some(post) => {
            world_state::note(post, placings, up)?;
            Ok(())
        }
    }
}

/// Each node's manager notes what became of its frames, in order of node. An `Err` means that memory ran out; then no further
/// node notes.
pub fn note_all<K: Disk + Drop, Q: Device + Drop, E: Entropy + Drop, X: Wire + Drop>(
    state: &mut State<K, Q, E, X>,
    all: Vec<Placings>,
) -> Result<(), Memory>
    requires asked { (net : Network) × (w : World) × MayNoteAll (outside K.Disk Q.Device E.Entropy X.Wire) state.old net w all.items }
    ensures site { state.new.site ≡ state.old.site }
    ensures armed { most_armed K.Disk state.new.posts.items ≡ most_armed K.Disk state.old.posts.items }
    ensures ok { OnOk result ((net : Network) (w : World) → MayNoteAll (outside K.Disk Q.Device E.Entropy X.Wire) state.old net w all.items → NotesAll (outside K.Disk Q.Device E.Entropy X.Wire) state.old state.new net w) }
    ensures err { OnErr result ((net : Network) (w : World) → MayNoteAll (outside K.Disk Q.Device E.Entropy X.Wire) state.old net w all.items → EndsNotes (outside K.Disk Q.Device E.Entropy X.Wire) state.old state.new net w) }
{
    let mut node = 0;
    for placings in all {
        note(state, node, placings)?;
        node += 1;
    }
    Ok(())
}
