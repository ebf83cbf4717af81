// The laws of veils, stated for lanes and frames as values.
ghost use Rattle.std.specs.Prelude.{◌≡◌, ◌↔◌, ℕ, List, length, None, IsTrue};
ghost use Rattle.std.specs.List.{All};
ghost use Rattle.pad_veil.specs.declared.sealed_frame.SealedFrame.{SealedFrame as FrameValue};
ghost use Rattle.pad_veil.specs.Faults.{spends, meet, first_fault, LieApart};
ghost use Rattle.pad_veil.specs.Veil.{veil, IsVeil, Fits};

/// Each wire fits other payloads as well. If frames lie apart, the frames of their new payloads over the lane's veil are,
/// octet for octet, the frames of their old payloads over the lane. Only one list of bytes is such a veil. Frames lie apart
/// exactly if none has a fault. Two frames overlap exactly if they both spend some byte.
pub fn law_every_key_fits()
    ensures fits { (bytes : List ℕ) (frames : List FrameValue) → LieApart (length bytes) frames → All (Fits bytes (veil bytes frames)) frames }
    ensures bytes { (bytes : List ℕ) (frames : List FrameValue) → LieApart (length bytes) frames → IsVeil bytes frames (veil bytes frames) }
    ensures one { (bytes : List ℕ) (frames : List FrameValue) (one other : List ℕ) → IsVeil bytes frames one → IsVeil bytes frames other → one ≡ other }
    ensures apart { (size : ℕ) (frames : List FrameValue) → (first_fault size frames ≡ None) ↔ LieApart size frames }
    ensures meet { (f g : FrameValue) → IsTrue (meet f g) ↔ ((byte : ℕ) × IsTrue (spends byte f) × IsTrue (spends byte g)) }
{}
