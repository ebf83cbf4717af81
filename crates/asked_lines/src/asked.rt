// Which items a person asked for.
ghost use Rattle.std.specs.Prelude.{◌≡◌};
ghost use Rattle.asked_lines.specs.Asked.{is_asked, is_refused};

use run_types::{FrameResult, Item, StartResult};

// Whether a frame was refused.
fn is_refused(came: FrameResult) -> bool
    ensures { result ≡ is_refused came }
{
    matches!(&came, FrameResult::Refused(_))
}

/// Whether a person asked for this item.
pub fn is_asked(item: &Item) -> bool
    ensures { result ≡ is_asked item.now }
{
    match *item {
        Item::Took { .. }
        | Item::Ticked { .. }
        | Item::Idle { .. }
        | Item::Sent { .. }
        | Item::Crashed
        | Item::Armed
        | Item::LinkSet { .. }
        | Item::Start(StartResult::Started)
        | Item::Start(StartResult::WasUp) => false,
        Item::Passed { result: came, .. } => is_refused(came),
        _ => true,
    }
}
