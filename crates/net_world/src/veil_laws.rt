// Proves that a network's wires fit every other key: over other lane bytes the frames are the same, octet for octet (one-time pad).
ghost use Rattle.std.specs.Prelude.{◌≡◌, ◌≤◌, ◌<◌, ◌^◌, ◌+◌, ℕ, List, length, true, slice_get, Some, None};
ghost use Rattle.std.specs.List.{All};
ghost use Rattle.qkd_base.specs.declared.lane.Lane.{Lane};
ghost use Rattle.net_model.specs.declared.fact.Fact.{Fact};
ghost use Rattle.net_model.specs.Premises.{IsNetwork};
ghost use Rattle.net_model.specs.Invariant.{Conserved};
ghost use Rattle.net_model.specs.World.{Network, World};
ghost use Rattle.net_model.specs.Events.{is_lane};
ghost use Rattle.net_model.specs.Frames.{octets_sent};
ghost use Rattle.hop_frames.specs.Sealing.{hop_sealing};
ghost use Rattle.pad_veil.specs.Faults.{LieApart};
ghost use Rattle.pad_veil.specs.Veil.{Fits};
ghost use Rattle.net_world.specs.Other.{DifferInBytes, sealed_on, other_bytes, EveryKeyFits};
ghost use Rattle.net_world.specs.Veiled.{veiled_facts};

use frame_codec::spelled_is_read;
use pad_veil::law_every_key_fits;

/// The frames of a wire, each counted once, use disjoint bytes of their lane, whatever the keys are. So each frame, with the other payload
/// and over the lane's other bytes, has the same octets as before.
pub fn law_sent_lie_apart()
    ensures apart { (net : Network) (w : World) (others : List Fact) (l : Lane) → IsNetwork net → Conserved net w → is_lane net.site l ≡ true →
        DifferInBytes w.durable.facts others → LieApart (length (octets_sent net w l)) (sealed_on w others l) }
    ensures fits { (net : Network) (w : World) (others : List Fact) (l : Lane) → IsNetwork net → Conserved net w → is_lane net.site l ≡ true →
        DifferInBytes w.durable.facts others → All (Fits (octets_sent net w l) (other_bytes net w others l)) (sealed_on w others l) }
{
    spelled_is_read();
    law_every_key_fits();
}

/// Every other key fits the wires of a network of hop frames.
pub fn law_other_keys_fit()
    ensures { (net : Network) (w : World) → IsNetwork net → Conserved net w → net.sealing ≡ hop_sealing → EveryKeyFits net w }
{
    law_sent_lie_apart();
    law_every_key_fits();
}

/// The facts with complemented bytes differ from the facts in bytes alone.
pub fn law_veiled_differ_in_bytes()
    ensures { (w : World) → DifferInBytes w.durable.facts (veiled_facts w) }
{}
