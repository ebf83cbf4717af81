// What became of a frame.
ghost use Rattle.std.specs.Prelude.{◌≡◌};
ghost use Rattle.lane_sender.specs.Sending.{answer_of};
ghost use Rattle.run_model.specs.Block.{is_put};
ghost use Rattle.run_ops.specs.Reported.{put};
ghost use Rattle.world_state.specs.Passed.{offset_of, wire_outcome};

use lane_sender::Sent;
use run_types::UnsentCause;
use source_devices::WireFailed;

/// Where the bytes of a frame begin on its lane.
pub fn offset(sent: &Sent) -> u64
    ensures { result ≡ offset_of sent.now }
{
    match sent {
        Sent::Placed { offset, .. } => *offset,
        Sent::Unsent { offset, .. } => *offset,
    }
}

/// The number that the wire gave, or why it gave none.
pub fn answer(sent: &Sent) -> Result<u64, UnsentCause>
    ensures { put result ≡ wire_outcome (answer_of sent.now) }
{
    match sent {
        Sent::Placed { number, .. } => Ok(*number),
        Sent::Unsent { cause, .. } => match cause {
            WireFailed::Fault => Err(UnsentCause::WireFault),
            WireFailed::Memory => Err(UnsentCause::Memory),
        },
    }
}

/// Whether the wire took the frame.
pub fn is_taken(sent: &Sent) -> bool
    ensures { result ≡ is_put (wire_outcome (answer_of sent.now)) }
{
    match sent {
        Sent::Placed { .. } => true,
        Sent::Unsent { cause, .. } => match cause {
            WireFailed::Fault => false,
            WireFailed::Memory => false,
        },
    }
}
