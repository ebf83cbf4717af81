// The laws of the grammar, stated for payloads as values.
ghost use Rattle.std.specs.Prelude.{◌≡◌, ℕ, ◌≤◌, List, length, Ok};
ghost use Rattle.net_model.specs.declared.payload.Payload.{Payload as PayloadValue};
ghost use Rattle.net_model.specs.Facts.{payload_len, IsWellFormed};
ghost use Rattle.frame_codec.specs.Payload.{IsPayload, AreOctets, payload_octets};
ghost use Rattle.frame_codec.specs.Reading.{payload_of};

/// The spelling of a payload is read as that payload, so different payloads have different spellings. A spelling has 17 to
/// 561 octets.
pub fn spelled_is_read()
    ensures read { (p : PayloadValue) → IsPayload p → payload_of (payload_octets p) ≡ Ok p }
    ensures len { (p : PayloadValue) → length (payload_octets p) ≡ payload_len p }
    ensures range { (p : PayloadValue) → IsPayload p → (17 ≤ payload_len p) × (payload_len p ≤ 561) }
    ensures formed { (p : PayloadValue) → IsPayload p → IsWellFormed p }
{}

/// If octets are read as a payload, they are its spelling.
pub fn read_is_spelled()
    ensures { (octets : List ℕ) (p : PayloadValue) → AreOctets octets → payload_of octets ≡ Ok p → IsPayload p × (octets ≡ payload_octets p) }
{}
