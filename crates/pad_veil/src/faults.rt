// How the first frame with a fault is found.
ghost use Rattle.std.specs.Prelude.{◌≡◌, ◌↔◌, ◌≤◌, ◌<◌, ◌^◌, List, length, ◌∷◌, [], ◌++◌, IsTrue};
ghost use Rattle.std.specs.List.{All, list_any};
ghost use Rattle.pad_veil.specs.declared.sealed_frame.SealedFrame.{SealedFrame as FrameValue};
ghost use Rattle.pad_veil.specs.Faults.{end_of, meet, Marks, fault_of, first_fault, Refuses};

use crate::{SealedFrame, VeilRefusal};
use std::alloc::Global;

// The number of bytes of a lane's hash key.
const KEY_LEN: u64 = 8;

// The number of bytes that mask a frame's tag.
const TAG_LEN: usize = 8;

// Whether a frame begins behind the hash key and ends within a lane of `size` bytes.
fn is_inside(frame: &SealedFrame, size: usize) -> bool
    ensures { IsTrue result ↔ ((8 ≤ frame.now.offset) × (end_of frame.now ≤ size)) }
{
    let offset = frame.offset;
    let len = frame.old.len();
    // The test subtracts from the lane's length, since the frame's end may be above 2^64 - 1.
    KEY_LEN <= offset
        && TAG_LEN <= size
        && len <= size - TAG_LEN
        && offset <= (size - TAG_LEN - len) as u64
}

// The first byte that a frame spends, and the byte behind its last one.
fn ends(frame: &SealedFrame) -> (usize, usize)
    requires { end_of frame.now < 2 ^ 64 }
    ensures start { result.0 ≡ frame.now.offset }
    ensures end { result.1 ≡ end_of frame.now }
{
    let start = frame.offset as usize;
    (start, start + frame.old.len() + TAG_LEN)
}

// Whether a byte of this frame is marked. The bytes that earlier frames spend are marked.
fn is_met(frame: &SealedFrame, spent: &[bool]) -> bool
    requires { end_of frame.now ≤ length spent.now }
    ensures { (earlier : List FrameValue) → Marks earlier spent.now → All (λ f. end_of f ≤ length spent.now) earlier → result ≡ list_any (meet frame.now) earlier }
{
    let (start, end) = ends(frame);
    is_any(&spent[start..end])
}

// Whether any byte is marked.
fn is_any(spent: &[bool]) -> bool
    ensures { result ≡ list_any (λ byte. byte) spent.now }
{
    spent.iter().any(|byte| *byte)
}

// Marks the bytes that a frame spends.
fn spend(spent: &mut [bool], frame: &SealedFrame)
    requires { end_of frame.now ≤ length spent.old }
    ensures { (earlier : List FrameValue) → Marks earlier spent.old → Marks (earlier ++ frame.now ∷ []) spent.new }
{
    let (start, end) = ends(frame);
    spent[start..end].fill(true);
}

// The fault of the frame at a place, if it has one. The bytes that earlier frames spend are marked.
fn fault_of(frame: &SealedFrame, place: usize, spent: &[bool]) -> Option<VeilRefusal>
    ensures { (earlier : List FrameValue) → length earlier ≡ place → Marks earlier spent.now → All (λ f. end_of f ≤ length spent.now) earlier → result ≡ fault_of (length spent.now) earlier frame.now }
{
    if frame.old.len() != frame.new.len() {
        return Some(VeilRefusal::Unequal(place));
    }
    if !is_inside(frame, spent.len()) {
        return Some(VeilRefusal::Outside(place));
    }
    if is_met(frame, spent) {
        return Some(VeilRefusal::Overlap(place));
    }
    None
}

// The fault of the first frame that has one. At the beginning no byte of the lane is marked. Because of the marks, the time
// grows with the bytes that the frames spend, and not with the number of pairs of frames.
fn first_fault(spent: &mut [bool], frames: &[SealedFrame]) -> Option<VeilRefusal>
    requires { Marks [] spent.old }
    ensures { result ≡ first_fault (length spent.old) frames.now }
{
    for (place, frame) in frames.iter().enumerate() {
        if let Some(fault) = fault_of(frame, place, spent) {
            return Some(fault);
        }
        spend(spent, frame);
    }
    None
}

// Refuses the first frame that has a fault on a lane of `size` bytes.
pub fn refuse(alloc: Global, size: usize, frames: &[SealedFrame]) -> Result<(), VeilRefusal>
    ensures { Refuses (first_fault size frames.now) result }
{
    let mut spent = vec![in alloc; false; size]?;
    match first_fault(&mut spent, frames) {
        Some(fault) => Err(fault),
        None => Ok(()),
    }
}
