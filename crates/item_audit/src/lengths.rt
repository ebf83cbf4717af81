// Rules 14 and 19, as to lengths: frames have those of payloads.
ghost use Rattle.std.specs.Prelude.{◌≡◌};
ghost use Rattle.item_audit.specs.Lengths.{is_payload, has_length, is_within, fits_kind, fits_length};

use run_types::{FrameResult, Item, PayloadKind};

// Whether some payload has so many octets.
fn is_payload(length: u64) -> bool
    ensures { result ≡ is_payload length }
{
    length == 17 || (26 <= length && length <= 561)
}

/// Whether a frame that is put, or for which a lane lacks bytes, has the length of some payload.
pub fn has_length(item: &Item) -> bool
    ensures { result ≡ has_length item.now }
{
    match item {
        Item::Sent { length, .. } => is_payload(u64::from(*length)),
        Item::Short { need, .. } => is_payload(need.saturating_sub(8)),
        _ => true,
    }
}

fn is_within(least: u64, most: u64, number: u64) -> bool
    ensures { result ≡ is_within least most number }
{
    least <= number && number <= most
}

// Whether a payload of this kind may have so many octets.
fn fits_kind(kind: PayloadKind, length: u64) -> bool
    ensures { result ≡ fits_kind kind length }
{
    match kind {
        PayloadKind::Key => is_within(34, 545, length),
        PayloadKind::Chunk | PayloadKind::Part => is_within(50, 561, length),
        PayloadKind::Open => is_within(26, 33, length),
        PayloadKind::Stored | PayloadKind::Joined => is_within(36, 43, length),
        PayloadKind::Ack => length == 17,
    }
}

/// Whether this may become of a frame whose payload has so many octets, as far as it tells the payload's kind.
pub fn fits_length(length: u64, outcome: &FrameResult) -> bool
    ensures { result ≡ fits_length length outcome.now }
{
    match outcome {
        FrameResult::Taken { kind, .. } => fits_kind(*kind, length),
        FrameResult::Again { kind, .. } => fits_kind(*kind, length),
        FrameResult::Refused(_) => true,
    }
}
