// A wire in memory.
ghost use Rattle.std.specs.Prelude.{◌≡◌, ◌≤◌, ◌<◌, ◌+◌, ◌++◌, ◌∷◌, [], Some, None, OnOk, OnErr, IfOk, IfErr, IsErrOf, MatchResult, MatchOption, length, take, drop, slice_index_or, slice_get, if◌then◌else◌, true, false};
ghost use Rattle.qkd_base.specs.Faults.{Rose, one_more};
ghost use Rattle.source_devices.specs.declared.wire.WireFailed.TheVariants.{Fault};
ghost use Rattle.source_devices.specs.Frames.{TakesFrame, TakesAgain, IsFrame};
ghost use Rattle.source_devices.specs.Forms.{is_cut, cut_out};

use crate::parts::copy_part;
use crate::{Wire, WireFailed};
use qkd_base::{FrameOctets, Memory};
use std::alloc::Global;
use std::marker::Model;

/// A wire in memory. Its calls of `send_new` and `send_again` are numbered together from 0, and those on a list fail. Sending
/// a frame again stores its octets no second time.
#[derive(Debug, Drop)]
pub struct MemWire {
    // The octets of all new frames, in order.
    octets: Vec<u8>,
    // Each frame's start among these octets, and its length.
    spans: Vec<(usize, usize)>,
    fails: Vec<u64>,
    calls: u64,
    faults: u64,
}

impl Model for MemWire {
    ghost use Rattle.source_devices.specs.Forms.{WireForm, frames_at, AllInside};

    ghost Value = { WireForm };

    ghost view = { λ s. record { frames = frames_at s.octets.items s.spans.items; fails = s.fails.items; calls = s.calls; faults = s.faults } };

    ghost invariant = { λ s. AllInside s.octets.items s.spans.items };
}

impl MemWire {
    /// An empty wire. `fails` has the numbers of the calls that are to fail.
    pub fn new(alloc: Global, fails: Vec<u64>) -> Self
        ensures { result ≡ record { frames = []; fails = fails.items; calls = 0; faults = 0 } }
    {
        MemWire {
            octets: Vec::new(alloc),
            spans: Vec::new(alloc),
            fails,
            calls: 0,
            faults: 0,
        }
    }

    // Counts a call, and returns whether it is to fail.
    fn begin(&mut self) -> bool
        ensures listed { result ≡ is_cut self.old }
        ensures later { self.old.faults ≤ self.new.faults }
        ensures counted { self.new ≡ record self.old { calls = one_more self.old.calls; faults = (if is_cut self.old then one_more self.old.faults else self.old.faults) } }
    {
        let call = self.calls;
        self.calls = call.saturating_add(1);
        let fails = self.fails.contains(&call);
        if fails {
            self.faults = self.faults.saturating_add(1);
        }
        fails
    }

    // Adds a frame.
    #[tactic(auto, using(crate::proofs::Spans::frames_new, crate::proofs::Spans::length_frames))]
    fn add(&mut self, bytes: &[u8]) -> Result<u64, Memory>
        requires short { length bytes.now ≤ 600 }
        ensures number { IfOk result (λ n. n ≡ length self.old.frames) }
        ensures added { OnOk result (self.new ≡ record self.old { frames = self.old.frames ++ bytes.now ∷ [] }) }
        ensures kept { OnErr result (self.new ≡ self.old) }
    {
        let number = self.spans.len();
        let start = self.octets.len();
        self.spans.reserve(1)?;
        self.octets.reserve(bytes.len())?;
        self.octets.extend_from_slice(bytes).unwrap();
        self.spans.push_reserved((start, bytes.len()));
        Ok(number as u64)
    }

    // Adds the frame with this number once more.
    #[tactic(auto, using(crate::proofs::Spans::length_frames))]
    fn add_again(&mut self, number: u64) -> Result<u64, Memory>
        requires there { number < length self.old.frames }
        ensures number { IfOk result (λ n. n ≡ length self.old.frames) }
        ensures added { OnOk result (self.new ≡ record self.old { frames = self.old.frames ++ slice_index_or self.old.frames number [] ∷ [] }) }
        ensures kept { OnErr result (self.new ≡ self.old) }
    {
        let next = self.spans.len();
        self.spans.reserve(1)?;
        let span = self.spans[number as usize];
        self.spans.push_reserved(span);
        Ok(next as u64)
    }
}

// Copies a frame to the front of the buffer.
fn copy_out(octets: &[u8], start: usize, size: usize, into: &mut FrameOctets)
    requires inside { start + size ≤ length octets.now }
    requires short { size ≤ 600 }
    ensures given { take size into.new.octets ≡ cut_out octets.now (start, size) }
    ensures after { drop size into.new.octets ≡ drop size into.old.octets }
{
    copy_part(octets, start, &mut into.octets[..size]);
}

impl Wire for MemWire {
    ghost frames = { λ s. Some s.frames };

    ghost counted = { λ s. length s.frames };

    ghost faults = { λ s. s.faults };

    fn send_new(&mut self, bytes: &[u8]) -> Result<u64, WireFailed>
        requires short { length bytes.now ≤ 600 }
        ensures number { MatchResult result (λ n. (n ≡ length self.old.frames) × (length self.new.frames ≡ length self.old.frames + 1)) (λ _. length self.new.frames ≡ length self.old.frames) }
        ensures frame { TakesFrame (Some self.old.frames) (Some self.new.frames) result bytes.now }
        ensures cause { IsErrOf result Fault → Rose self.old.faults self.new.faults }
        ensures later { self.old.faults ≤ self.new.faults }
        ensures calm { (IsErrOf result Fault → ⊥) → self.new.faults ≡ self.old.faults }
        ensures listed { is_cut self.old ≡ true → IsErrOf result Fault }
        ensures unlisted { is_cut self.old ≡ false → IsErrOf result Fault → ⊥ }
        ensures kept { self.new ≡ record self.old { frames = self.new.frames; calls = one_more self.old.calls; faults = (if is_cut self.old then one_more self.old.faults else self.old.faults) } }
    {
        if self.begin() {
            return Err(WireFailed::Fault);
        }
        match self.add(bytes) {
            Ok(number) => Ok(number),
            Err(Memory) => Err(WireFailed::Memory),
        }
    }

    fn send_again(&mut self, number: u64) -> Result<u64, WireFailed>
        requires there { number < length self.old.frames }
        ensures number { MatchResult result (λ n. (n ≡ length self.old.frames) × (length self.new.frames ≡ length self.old.frames + 1)) (λ _. length self.new.frames ≡ length self.old.frames) }
        ensures frame { TakesAgain (Some self.old.frames) (Some self.new.frames) result number }
        ensures cause { IsErrOf result Fault → Rose self.old.faults self.new.faults }
        ensures later { self.old.faults ≤ self.new.faults }
        ensures calm { (IsErrOf result Fault → ⊥) → self.new.faults ≡ self.old.faults }
        ensures listed { is_cut self.old ≡ true → IsErrOf result Fault }
        ensures unlisted { is_cut self.old ≡ false → IsErrOf result Fault → ⊥ }
        ensures kept { self.new ≡ record self.old { frames = self.new.frames; calls = one_more self.old.calls; faults = (if is_cut self.old then one_more self.old.faults else self.old.faults) } }
    {
        if self.begin() {
            return Err(WireFailed::Fault);
        }
        match self.add_again(number) {
            Ok(next) => Ok(next),
            Err(Memory) => Err(WireFailed::Memory),
        }
    }

    #[tactic(auto, using(crate::proofs::Spans::length_frames))]
    fn count(&self) -> u64 {
        self.spans.len() as u64
    }

    #[tactic(auto, using(crate::proofs::Spans::length_frames))]
    fn frame(&self, number: u64, into: &mut FrameOctets) -> Option<usize>
        ensures frame { MatchOption result
            ((length self.now.frames ≤ number) × (into.new ≡ into.old))
            (λ n. (number < length self.now.frames) × (n ≤ 600) × IsFrame (Some self.now.frames) number n into.new.octets × (drop n into.new.octets ≡ drop n into.old.octets)) }
    {
        match self.spans.get(number as usize) {
            Some(&(start, size)) => {
                copy_out(&self.octets, start, size, into);
                Some(size)
            }
            None => None,
        }
    }

    ghost use Rattle.std.specs.Prelude.{refl};

    ghost all_counted = { λ _. refl };
}
