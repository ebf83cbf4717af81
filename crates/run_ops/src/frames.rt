// The items that report what a wire answered.
ghost use Rattle.std.specs.Prelude.{◌≡◌, [], ◌∷◌};
ghost use Rattle.run_model.specs.Outcomes.{put_items};
ghost use Rattle.run_ops.specs.Reported.{put};

use qkd_base::Lane;
use run_types::{Item, UnsentCause};

/// The item that reports a frame after it was put on its lane's wire. The wire gave it a number or didn't take it.
/// `length` is the length of its payload in octets.
pub fn put_item(lane: Lane, offset: u64, length: u16, answer: Result<u64, UnsentCause>) -> Item
    ensures { result ∷ [] ≡ put_items lane offset length (put answer) }
{
    match answer {
        Ok(number) => Item::Sent {
            lane,
            number,
            offset,
            length,
        },
        Err(cause) => Item::Unsent {
            lane,
            offset,
            cause,
        },
    }
}
