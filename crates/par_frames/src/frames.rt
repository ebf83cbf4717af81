// The frames of a block are recorded, and their senders note them.
ghost use Rattle.std.specs.Prelude.{◌≡◌, IfOk, OnErr};
ghost use Rattle.net_model.specs.World.{Network, World};
ghost use Rattle.world_state.specs.Armed.{most_armed};
ghost use Rattle.par_frames.specs.FrameNoting.{EndsNotes};
ghost use Rattle.par_frames.specs.Noting.{MayNoteFrames, NotesFrames};
ghost use Rattle.world_state.specs.Outside.{outside};

use crate::frame_records::record_frames;
use crate::{Log, note_all};
use disk_model::Disk;
use par_lanes::Emitted;
use qkd_base::Memory;
use run_ops::PutFrame;
use source_devices::{Device, Entropy, Wire};
use std::alloc::Global;
use world_state::State;

/// Has each node note what became of the frames that it sent. The result reports all frames lane by lane: first those that the wire took,
/// then those that it refused, in order of offset. On `Err` memory ran out and the run ends.
pub fn note_frames<K: Disk + Drop, Q: Device + Drop, E: Entropy + Drop, X: Wire + Drop>(
    alloc: Global,
    state: &mut State<K, Q, E, X>,
    frames: &[Emitted],
) -> Result<Vec<PutFrame>, Memory>
    requires may { (net : Network) × (w : World) × MayNoteFrames (outside K.Disk Q.Device E.Entropy X.Wire) state.old net w frames.now }
    ensures site { state.new.site ≡ state.old.site }
    ensures armed { most_armed K.Disk state.new.posts.items ≡ most_armed K.Disk state.old.posts.items }
    ensures ok { IfOk result (λ reported. (net : Network) (w : World) → MayNoteFrames (outside K.Disk Q.Device E.Entropy X.Wire) state.old net w frames.now
        → NotesFrames (outside K.Disk Q.Device E.Entropy X.Wire) state.old state.new net w frames.now reported.items) }
    ensures err { OnErr result ((net : Network) (w : World) → MayNoteFrames (outside K.Disk Q.Device E.Entropy X.Wire) state.old net w frames.now
        → EndsNotes (outside K.Disk Q.Device E.Entropy X.Wire) state.old state.new net w) }
{
    let mut log = Log::new(alloc, state.posts.len());
    record_frames(&state.site, frames, &mut log);
    let Log {
        is_whole,
        frames,
        placings,
        ..
    } = log;
    if !is_whole {
        return Err(Memory);
    }
    note_all(state, placings)?;
    Ok(frames)
}
