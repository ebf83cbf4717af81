// The different frames of a wire.
ghost use Rattle.std.specs.Prelude.{◌≡◌, ◌≤◌, ◌<◌, ℕ, true, false, not, IfOk, length, slice_get, slice_index_or, slice_set, Some};
ghost use Rattle.net_model.specs.World.{Network, World};
ghost use Rattle.net_model.specs.Events.{is_lane};
ghost use Rattle.world_state.specs.Passed.{IsRunning, LaneStands};
ghost use Rattle.net_world.specs.Other.{sealed_with, sealed_on};
ghost use Rattle.net_world.specs.Veiled.{veiled_facts};

use crate::unseal::{part, unsealed};
use lane_sender::LaneSide;
use pad_veil::{Sealed, SealedFrame};
use qkd_base::{FrameOctets, Memory};
use source_devices::Wire;
use std::alloc::Global;

// Marks the frame that begins at an offset. `true` says that it was not marked before.
fn is_new(marks: &mut [bool], offset: u64) -> bool
    requires { offset < length marks.old }
    ensures new { result ≡ not (slice_index_or marks.old offset false) }
    ensures marked { marks.new ≡ slice_set marks.old offset true }
{
    let place = offset as usize;
    let was = marks[place];
    marks[place] = true;
    !was
}

// The frame with this number on a wire, opened.
fn frame_at<X: Wire>(alloc: Global, side: &LaneSide<X>, number: u64) -> Result<SealedFrame, Memory>
    requires there { number < X.counted side.now.wire }
    requires ready { (net : Network) × (w : World) × IsRunning net w × (is_lane net.site side.now.lane ≡ true) × LaneStands X.Wire net w side.now.lane side.now }
    ensures frame { IfOk result (λ frame. (net : Network) (w : World) (j : ℕ) → IsRunning net w → is_lane net.site side.now.lane ≡ true →
        LaneStands X.Wire net w side.now.lane side.now → slice_get (w.wire side.now.lane) number ≡ Some j →
        frame ≡ sealed_with w.durable.facts (veiled_facts w) (slice_get (w.frames side.now.lane) j)) }
    ensures within { IfOk result (λ frame. frame.offset < length side.now.bytes) }
{
    let mut room = FrameOctets::new();
    match world_state::frame(side, number, &mut room) {
        None => unreachable!(),
        Some(length) => unsealed(alloc, part(&room.octets, 0, length), side.bytes()),
    }
}

// Collects the different frames of a wire, in the order of their first occurrences. There is one mark for each byte of the lane, and none
// is set.
fn collect<X: Wire>(alloc: Global, side: &LaneSide<X>, marks: &mut [bool]) -> Result<Sealed, Memory>
    requires ready { (net : Network) × (w : World) × IsRunning net w × (is_lane net.site side.now.lane ≡ true) × LaneStands X.Wire net w side.now.lane side.now }
    requires size { length marks.old ≡ length side.now.bytes }
    requires none { (x : ℕ) → x < length marks.old → slice_index_or marks.old x false ≡ false }
    ensures frames { IfOk result (λ frames. (net : Network) (w : World) → IsRunning net w → is_lane net.site side.now.lane ≡ true →
        LaneStands X.Wire net w side.now.lane side.now → frames ≡ sealed_on w (veiled_facts w) side.now.lane) }
    ensures few { IfOk result (λ frames. length frames ≤ length side.now.bytes) }
{
    let mut frames = Sealed::new(alloc);
    for number in 0..side.wire().count() {
        let frame = frame_at(alloc, side, number)?;
        // A frame that is sent again begins at the same offset as before.
        if is_new(marks, frame.offset) {
            frames.push(frame)?;
        }
    }
    Ok(frames)
}

/// The different frames on a lane's wire, in the order in which they were first put, with the complements of their keys.
pub fn frames_of<X: Wire>(alloc: Global, side: &LaneSide<X>) -> Result<Sealed, Memory>
    requires ready { (net : Network) × (w : World) × IsRunning net w × (is_lane net.site side.now.lane ≡ true) × LaneStands X.Wire net w side.now.lane side.now }
    ensures frames { IfOk result (λ frames. (net : Network) (w : World) → IsRunning net w → is_lane net.site side.now.lane ≡ true →
        LaneStands X.Wire net w side.now.lane side.now → frames ≡ sealed_on w (veiled_facts w) side.now.lane) }
    ensures few { IfOk result (λ frames. length frames ≤ length side.now.bytes) }
{
    let mut marks = vec![in alloc; false; side.bytes().len()]?;
    collect(alloc, side, &mut marks)
}
