// The veil of a lane: other bytes under which its frames carry other payloads.
ghost use Rattle.std.specs.Prelude.{◌≡◌, length, IfOk};
ghost use Rattle.std.specs.List.{All};
ghost use Rattle.pad_veil.specs.Faults.{first_fault, Refuses, LieApart};
ghost use Rattle.pad_veil.specs.Veil.{veil, IsVeil, Fits};

use crate::exchange::exchange_all;
use crate::faults::refuse;
use crate::{Sealed, SealedFrame, VeilRefusal};
use qkd_base::Octets;
use std::alloc::{AllocError, Global};

// The veil of a lane, if no frame has a fault.
fn veil_of(alloc: Global, lane: &[u8], frames: &[SealedFrame]) -> Result<Octets, AllocError>
    requires { LieApart (length lane.now) frames.now }
    ensures { IfOk result (λ answer. answer ≡ veil lane.now frames.now) }
{
    let mut answer = lane.to_vec(alloc)?;
    exchange_all(&mut answer, frames);
    Ok(Octets::from_vec(answer))
}

/// The veil of a lane: the bytes under which each frame has its new payload and is, octet for octet, what it was with its old
/// one. Each byte that masks a payload is xored with the old octet and with the new one, and no other byte changes. So a wire
/// fits one payload as well as the other (one-time pad).
///
/// `lane` has the lane's bytes from the first one on, of which the first 8 are the hash key. The first frame with a fault is
/// refused. The error gives its place among the frames, counted from 0, and its first fault:
///
/// - `Unequal`: its payloads differ in length.
/// - `Outside`: its offset is below 8, or its payload and the 8 bytes of its tag pass the end of the lane.
/// - `Overlap`: it spends a byte that an earlier frame spends, for its payload or its tag.
///
/// In place of any result the error may be `Memory`: memory ran out. The time grows with the bytes of the lane and of the
/// payloads. The call needs one byte of memory for each byte of the lane, beside the bytes that it returns.
pub fn veiled(alloc: Global, lane: &[u8], frames: &Sealed) -> Result<Octets, VeilRefusal>
    ensures refused { Refuses (first_fault (length lane.now) frames.now) result }
    ensures veil { IfOk result (λ answer. answer ≡ veil lane.now frames.now) }
    ensures bytes { IfOk result (λ answer. IsVeil lane.now frames.now answer) }
    ensures fits { IfOk result (λ answer. All (Fits lane.now answer) frames.now) }
{
    let frames = frames.as_slice();
    refuse(alloc, lane.len(), frames)?;
    let answer = veil_of(alloc, lane, frames)?;
    Ok(answer)
}
