// Laws of lanes: no byte of a lane masks two frames, and frames on a wire stay there with the same octets.
ghost use Rattle.std.specs.Prelude.{◌≡◌, ◌*◌, ◌<◌, ℕ, List, Some, slice_get, true};
ghost use Rattle.qkd_base.specs.LaneBytes.{lane_octets, lane_len};
ghost use Rattle.qkd_base.specs.declared.lane.Way.{Way as WayValue};
ghost use Rattle.qkd_base.specs.declared.lane.Lane.{Lane as LaneValue};
ghost use Rattle.net_model.specs.OctetSequence.{OctetSequence, first_blocks};
ghost use Rattle.net_model.specs.World.{Network, World, Allocation, Transmission};
ghost use Rattle.net_model.specs.Ownership.{covers};
ghost use Rattle.net_model.specs.Premises.{IsNetwork};
ghost use Rattle.net_model.specs.Action.{Action, Environment, Allocate, Transmit};
ghost use Rattle.net_model.specs.Frames.{frame_octets, allocate, transmit};
ghost use Rattle.net_model.specs.Step.{is_enabled, run};
ghost use Rattle.net_model.specs.Events.{is_lane};
ghost use Rattle.net_model.specs.Invariant.{Conserved};
ghost use Rattle.law_base.specs.DevicePlace.{device_place};

/// The two lanes of a link share no byte of the device's list. After n blocks of the link, each byte of a lane is the octet
/// at one place of that list. Different lanes or offsets have different places.
pub fn law_lanes_share_no_byte()
    ensures byte { (t : OctetSequence) (way : WayValue) (n offset : ℕ) → offset < lane_len way n →
        slice_get (lane_octets way (first_blocks t n)) offset ≡ Some (t.octet (device_place way offset)) }
    ensures within { (way : WayValue) (n offset : ℕ) → offset < lane_len way n → device_place way offset < 1024 * n }
    ensures apart { (a b : WayValue) (i j : ℕ) → device_place a i ≡ device_place b j → (a ≡ b) × (i ≡ j) }
{}

/// No byte of a lane belongs to two frames.
pub fn law_no_byte_twice()
    ensures { (net : Network) (w : World) → Conserved net w → (l : LaneValue) (i j x : ℕ) →
        covers w.durable.facts (slice_get (w.frames l) i) x ≡ true → covers w.durable.facts (slice_get (w.frames l) j) x ≡ true → i ≡ j }
{}

/// No octet of a device masks two frames, not even on different lanes of its link.
pub fn law_no_octet_twice()
    ensures { (net : Network) (w : World) → Conserved net w → (l m : LaneValue) (i j x y : ℕ) → l.link ≡ m.link →
        covers w.durable.facts (slice_get (w.frames l) i) x ≡ true → covers w.durable.facts (slice_get (w.frames m) j) y ≡ true →
        device_place l.way x ≡ device_place m.way y → (l ≡ m) × (i ≡ j) }
{}

/// Giving an order the next bytes of its lane keeps the conserved properties.
pub fn law_allocate_keeps()
    ensures { (net : Network) (w : World) (t : Transmission) →
        IsNetwork net → is_enabled net w (Allocate t) ≡ true → Conserved net w → Conserved net (allocate w t).0 }
{}

/// Putting a frame on its wire keeps the conserved properties, whether the wire takes or refuses it.
pub fn law_transmit_keeps()
    ensures { (net : Network) (w : World) (l : LaneValue) (j : ℕ) (environment : Environment) →
        IsNetwork net → is_enabled net w (Transmit l j environment) ≡ true → Conserved net w → Conserved net (transmit net w l j environment).0 }
{}

/// A frame that got its bytes keeps them in every run.
pub fn law_frames_stay()
    ensures { (net : Network) (w : World) (actions : List Action) (l : LaneValue) (j : ℕ) (a : Allocation) →
        slice_get (w.frames l) j ≡ Some a → slice_get ((run net w actions).frames l) j ≡ Some a }
{}

/// A frame on a wire stays at its place there.
pub fn law_wires_stay()
    ensures { (net : Network) (w : World) (actions : List Action) (l : LaneValue) (n j : ℕ) →
        slice_get (w.wire l) n ≡ Some j → slice_get ((run net w actions).wire l) n ≡ Some j }
{}

/// The octets of a frame stay the same while its lane gets more bytes.
pub fn law_octets_stay()
    ensures { (net : Network) (w : World) (actions : List Action) (l : LaneValue) (j : ℕ) (a : Allocation) →
        IsNetwork net → Conserved net w → is_lane net.site l ≡ true → slice_get (w.frames l) j ≡ Some a →
        frame_octets net (run net w actions) l (Some a) ≡ frame_octets net w l (Some a) }
{}
