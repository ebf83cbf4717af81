// The outcome of taking a block of bytes from a device, and its report.
ghost use Rattle.std.specs.Prelude.{◌≡◌};
ghost use Rattle.std.specs.Option.{option_to_list};
ghost use Rattle.net_model.specs.Action.{Replies};
ghost use Rattle.run_model.specs.Outcomes.{block_items};
ghost use Rattle.run_ops.specs.Reported.{taken};

use crate::refusals::refusal_of;
use net_model::Reply;
use qkd_base::LinkNo;
use run_types::{End, Item, Refusal};

/// The outcome of taking a link's next block of bytes.
#[derive(Debug, Drop)]
pub enum BlockTake {
    /// The manager replied.
    Replied(Reply),
    /// The device has no further block.
    NoBlock,
    /// The device failed.
    DeviceFailed,
}

// The item that reports a manager's reply to a block.
fn replied(link: LinkNo, end: End, reply: &Reply) -> Option<Item>
    ensures { option_to_list result ≡ block_items link end (Replies reply.now) }
{
    match reply {
        Reply::Took { number } => Some(Item::Took {
            link,
            end,
            number: *number,
        }),
        other => {
            let refusal = refusal_of(other)?;
            Some(Item::TookNone { link, end, refusal })
        }
    }
}

/// The item that reports what came of taking a block at an end of a link.
pub fn block_item(link: LinkNo, end: End, take: &BlockTake) -> Option<Item>
    ensures { option_to_list result ≡ block_items link end (taken take.now) }
{
    match take {
        BlockTake::Replied(reply) => replied(link, end, reply),
        BlockTake::NoBlock => Some(Item::TookNone {
            link,
            end,
            refusal: Refusal::NoBlock,
        }),
        BlockTake::DeviceFailed => Some(Item::TookNone {
            link,
            end,
            refusal: Refusal::DeviceFault,
        }),
    }
}
