// Opening a frame with the bytes of its lane's sender.
ghost use Rattle.std.specs.Prelude.{◌≡◌, ◌≤◌, ◌+◌, ℕ, length, take, drop, IfOk};
ghost use Rattle.qkd_base.specs.declared.lane.Lane.{Lane};
ghost use Rattle.net_model.specs.declared.payload.Payload.{Payload as PayloadValue};
ghost use Rattle.frame_codec.specs.Payload.{IsPayload, payload_octets};
ghost use Rattle.hop_frames.specs.Frame.{masked, number_of};
ghost use Rattle.net_world.specs.Veiled.{veiled_payload};
ghost use Rattle.net_world.specs.Frame.{IsFrame, veiled_frame};

use crate::complement::veiled_payload;
use frame_codec::{PayloadRefusal, read, spell, spelled_is_read};
use net_model::Payload;
use pad_veil::{SealedFrame, lay_over};
use qkd_base::{FrameOctets, Memory, Octets};
use std::alloc::Global;

// The number of octets before a frame's payload, and the number of all its octets except the payload.
const HEADER_LEN: usize = 16;

const BESIDE_LEN: usize = 24;

/// The `size` octets from `start` on.
pub fn part(octets: &[u8], start: usize, size: usize) -> &[u8]
    requires { start + size ≤ length octets.now }
    ensures { result.now ≡ take size (drop start octets.now) }
{
    &octets[start..start + size]
}

// The place in the lane of the first byte that masks a frame's payload.
fn offset_of(frame: &[u8]) -> u64
    requires { 16 ≤ length frame.now }
    ensures { result ≡ number_of (drop 8 frame.now) }
{
    let mut octets = [0u8; 8];
    octets.copy_from_slice(&frame[8..16]);
    u64::from_be_bytes(octets)
}

// The payload that the octets encode.
fn payload_of(alloc: Global, octets: &[u8]) -> Result<Payload, Memory>
    requires { (p : PayloadValue) × IsPayload p × (octets.now ≡ payload_octets p) }
    ensures { IfOk result (λ read. (p : PayloadValue) → IsPayload p → octets.now ≡ payload_octets p → read ≡ p) }
{
    spelled_is_read();
    match read(alloc, octets) {
        Ok(payload) => Ok(payload),
        Err(PayloadRefusal::Memory) => Err(Memory),
        Err(PayloadRefusal::NotAPayload(_)) => unreachable!(),
    }
}

// The octets of a payload with its key complemented.
fn veiled_octets(alloc: Global, octets: &[u8]) -> Result<Octets, Memory>
    requires { (p : PayloadValue) × IsPayload p × (octets.now ≡ payload_octets p) }
    ensures { IfOk result (λ other. (p : PayloadValue) → IsPayload p → octets.now ≡ payload_octets p → other ≡ payload_octets (veiled_payload p)) }
{
    spelled_is_read();
    let other = veiled_payload(payload_of(alloc, octets)?);
    let mut room = FrameOctets::new();
    let size = spell(&other, &mut room, 0);
    Octets::from_slice(alloc, &room.octets[..size])
}

// Removes the mask of these bytes from the octets (one-time pad).
fn unmasked(alloc: Global, octets: &[u8], pads: &[u8]) -> Result<Octets, Memory>
    requires { length pads.now ≤ length octets.now }
    ensures { IfOk result (λ clear. clear ≡ masked octets.now pads.now) }
{
    let mut clear = octets.to_vec(alloc)?;
    lay_over(&mut clear, pads);
    Ok(Octets::from_vec(clear))
}

/// Opens a frame with its lane's bytes, and adds the payload with its key complemented.
pub fn unsealed(alloc: Global, frame: &[u8], bytes: &[u8]) -> Result<SealedFrame, Memory>
    requires { (l : Lane) × (offset : ℕ) × (p : PayloadValue) × IsFrame l bytes.now offset p frame.now }
    ensures { IfOk result (λ sealed. (l : Lane) (offset : ℕ) (p : PayloadValue) → IsFrame l bytes.now offset p frame.now → sealed ≡ veiled_frame offset p) }
{
    spelled_is_read();
    let offset = offset_of(frame);
    let size = frame.len() - BESIDE_LEN;
    let octets = part(frame, HEADER_LEN, size);
    let pads = part(bytes, offset as usize, size);
    let old = unmasked(alloc, octets, pads)?;
    let new = veiled_octets(alloc, old.as_slice())?;
    Ok(SealedFrame { offset, old, new })
}
