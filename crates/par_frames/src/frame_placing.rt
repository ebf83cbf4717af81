// What a sender notes of a frame that was put.
ghost use Rattle.std.specs.Prelude.{◌≡◌};
ghost use Rattle.par_frames.specs.Frames.{frame_placing};

use lane_sender::Sent;
use net_model::Placing;
use par_lanes::Emitted;

/// What the sender of the frame's lane notes of the frame.
pub fn placing(emitted: &Emitted) -> Placing
    ensures { result ≡ frame_placing emitted.now }
{
    let Emitted {
        lane,
        name,
        ack_of,
        fresh,
        ..
    } = *emitted;
    let number = emitted.sent.number();
    match &emitted.sent {
        Sent::Placed {
            offset,
            length,
            frame,
            ..
        }
        | Sent::Unsent {
            offset,
            length,
            frame,
            ..
        } => Placing {
            lane,
            offset: *offset,
            name,
            ack_of,
            fresh,
            number,
            length: *length,
            frame: *frame,
        },
    }
}
