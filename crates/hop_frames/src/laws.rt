// The laws of frames, stated for lanes and payloads as values.
ghost use Rattle.std.specs.Prelude.{◌≡◌, ℕ, ◌+◌, ◌≤◌, ◌<◌, ◌^◌, ◌++◌, List, length, Ok, Err};
ghost use Rattle.qkd_base.specs.declared.lane.Lane.{Lane as LaneValue};
ghost use Rattle.net_model.specs.declared.payload.Payload.{Payload as PayloadValue};
ghost use Rattle.net_model.specs.Facts.{payload_len};
ghost use Rattle.net_model.specs.Sealing.{IsSealing};
ghost use Rattle.frame_codec.specs.Payload.{IsPayload, payload_octets};
ghost use Rattle.hop_frames.specs.declared.open_refusal.OpenRefusal.TheVariants.{NoBits};
ghost use Rattle.hop_frames.specs.Frame.{spell};
ghost use Rattle.hop_frames.specs.Opening.{open_of};
ghost use Rattle.hop_frames.specs.Sealing.{hop_sealing};

use frame_codec::spelled_is_read;

/// A frame depends only on the lane bytes up to its end: more bytes behind them don't change it.
pub fn prefix_of_a_lane()
    ensures { (lane : LaneValue) (offset : ℕ) (bytes more payload : List ℕ) → offset + length payload + 8 ≤ length bytes
        → spell lane offset (bytes ++ more) payload ≡ spell lane offset bytes payload }
{}

/// A sealed frame, opened with the same lane bytes, gives its payload and its offset. It is refused as long as too few of
/// these bytes have come.
pub fn sealed_is_opened()
    ensures opened { (lane : LaneValue) (bytes : List ℕ) (offset : ℕ) (p : PayloadValue) → IsPayload p → 8 ≤ offset → offset + payload_len p + 8 ≤ length bytes → length bytes < 2 ^ 63
        → open_of lane bytes (spell lane offset bytes (payload_octets p)) ≡ Ok (record { offset = offset; payload = p }) }
    ensures too_few { (lane : LaneValue) (bytes all : List ℕ) (offset : ℕ) (p : PayloadValue) → IsPayload p → 8 ≤ offset → offset + payload_len p + 8 < 2 ^ 63 → length bytes < offset + payload_len p + 8
        → open_of lane bytes (spell lane offset all (payload_octets p)) ≡ Err (NoBits (length bytes)) }
    ensures len { (lane : LaneValue) (bytes : List ℕ) (offset : ℕ) (p : PayloadValue) → length (spell lane offset bytes (payload_octets p)) ≡ 24 + payload_len p }
{
    spelled_is_read();
}

/// This crate's frames are as the network's model asks. They are octets, 24 more than the payload's. More lane bytes don't
/// change them. They open where they were sealed, and are refused while too few lane bytes have come.
pub fn frames_of_a_network()
    ensures { IsSealing hop_sealing }
{
    spelled_is_read();
    prefix_of_a_lane();
    sealed_is_opened();
}
