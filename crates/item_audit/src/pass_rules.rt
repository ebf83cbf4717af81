// Rule 14: frames that come to their receivers.
ghost use Rattle.std.specs.Prelude.{◌≡◌};
ghost use Rattle.item_audit.specs.Passing.{may_refuse_pass, is_of_kind, passes, is_of_offset, is_bad_place, may_refuse_flip, flips, hears_pass, hears_flip, hears_forge, hears_settle, hears};

use crate::frame_heads::{forges, is_changed_lane};
use qkd_base::{KeyName, Lane, NameKind};
use run_types::{Command, FrameResult, Item, PayloadKind, Refusal};

// Whether an unchanged frame of this number may be refused so.
fn may_refuse_pass(number: u32, refusal: Refusal) -> bool
    ensures { result ≡ may_refuse_pass number refusal }
{
    match refusal {
        Refusal::NoFrame { count } => count <= u64::from(number),
        Refusal::Down
        | Refusal::NoBits { .. }
        | Refusal::Memory
        | Refusal::JournalFull { .. }
        | Refusal::Stopped => true,
        _ => false,
    }
}

// Whether a payload of this kind is told under such a name.
fn is_of_kind(kind: PayloadKind, name: &KeyName) -> bool
    ensures { result ≡ is_of_kind kind name.now }
{
    match kind {
        PayloadKind::Key | PayloadKind::Chunk | PayloadKind::Part => {
            matches!(name.kind(), NameKind::Key)
        }
        PayloadKind::Open => matches!(name.kind(), NameKind::Stream),
        PayloadKind::Stored | PayloadKind::Joined => matches!(name.kind(), NameKind::Note),
        PayloadKind::Ack => true,
    }
}

// Whether this may become of an unchanged frame of this number.
fn passes(number: u32, outcome: &FrameResult) -> bool
    ensures { result ≡ passes number outcome.now }
{
    match outcome {
        FrameResult::Refused(refusal) => may_refuse_pass(number, *refusal),
        FrameResult::Taken { kind, name } => is_of_kind(*kind, name),
        FrameResult::Again { kind, name } => is_of_kind(*kind, name),
    }
}

// Whether a bit of a frame is one of its offset.
fn is_of_offset(bit: u32) -> bool
    ensures { result ≡ is_of_offset bit }
{
    64 <= bit && bit < 128
}

// Whether a frame with this changed bit is refused for this octet.
fn is_bad_place(bit: u32, place: u32) -> bool
    ensures { result ≡ is_bad_place bit place }
{
    if bit < 8 {
        place == 0
    } else if bit < 24 {
        false
    } else if bit < 32 {
        place == 3
    } else if bit < 48 {
        place == 4
    } else if bit < 64 {
        place == 6
    } else {
        bit < 128 && place == 8
    }
}

// Whether a frame with a changed bit may be refused so.
fn may_refuse_flip(lane: &Lane, number: u32, bit: u32, refusal: Refusal) -> bool
    ensures { result ≡ may_refuse_flip lane.now number bit refusal }
{
    match refusal {
        Refusal::NoFrame { count } => count <= u64::from(number),
        Refusal::NoBit { bits } => bits <= bit,
        Refusal::Down => true,
        Refusal::BadFrame { place } => is_bad_place(bit, place),
        Refusal::WrongLane { link, way } => {
            8 <= bit && bit < 24 && is_changed_lane(lane, bit, link, way)
        }
        Refusal::BadTag { given, computed } => 64 <= bit && given != computed,
        Refusal::NoBits { .. } | Refusal::Memory | Refusal::JournalFull { .. } => 64 <= bit,
        Refusal::Stopped => is_of_offset(bit),
        _ => false,
    }
}

// Whether this may become of a frame with a changed bit.
fn flips(lane: &Lane, number: u32, bit: u32, outcome: &FrameResult) -> bool
    ensures { result ≡ flips lane.now number bit outcome.now }
{
    match outcome {
        FrameResult::Refused(refusal) => may_refuse_flip(lane, number, bit, *refusal),
        _ => is_of_offset(bit),
    }
}

// Whether a pass of this frame may give the item.
fn hears_pass(line: &Lane, number: u32, item: &Item) -> bool
    ensures { result ≡ hears_pass line.now number item.now }
{
    match item {
        Item::Passed {
            lane,
            number: at,
            result: outcome,
        } => *lane == *line && *at == number && passes(*at, outcome),
        _ => true,
    }
}

// Whether a flip of this bit may give the item.
fn hears_flip(line: &Lane, number: u32, bit: u32, item: &Item) -> bool
    ensures { result ≡ hears_flip line.now number bit item.now }
{
    match item {
        Item::Flipped {
            lane,
            number: at,
            bit: changed,
            result: outcome,
        } => {
            *lane == *line
                && *at == number
                && *changed == bit
                && flips(lane, *at, *changed, outcome)
        }
        _ => true,
    }
}

// Whether these octets may give the item.
fn hears_forge(line: &Lane, octets: &[u8], item: &Item) -> bool
    ensures { result ≡ hears_forge line.now octets.now item.now }
{
    match item {
        Item::Forged {
            lane,
            result: outcome,
        } => *lane == *line && forges(line, octets, outcome),
        _ => true,
    }
}

// Whether a settle may give the item, as far as it passes frames.
fn hears_settle(item: &Item) -> bool
    ensures { result ≡ hears_settle item.now }
{
    match item {
        Item::Passed {
            number,
            result: outcome,
            ..
        } => passes(*number, outcome),
        _ => true,
    }
}

/// Whether a line may give the item, as far as frames come to receivers.
pub fn hears(command: &Command, item: &Item) -> bool
    ensures { result ≡ hears command.now item.now }
{
    match command {
        Command::Pass { lane, number } => hears_pass(lane, *number, item),
        Command::Flip { lane, number, bit } => hears_flip(lane, *number, *bit, item),
        Command::Forge { lane, octets } => hears_forge(lane, octets.as_slice(), item),
        Command::Settle { .. } => hears_settle(item),
        _ => true,
    }
}
