// The ways in which a manager's reply is reported.
ghost use Rattle.std.specs.Prelude.{◌≡◌, IfOk};
ghost use Rattle.std.specs.Option.{option_to_list};
ghost use Rattle.net_model.specs.Action.{Replies};
ghost use Rattle.run_ops.specs.Reported.{reported};

use crate::plans::tick_items;
use crate::requests::{handed_item, made_item, ready_item, shown_item, stream_item};
use net_model::Reply;
use qkd_base::{Items, KeyName, Memory, NodeNo};
use run_types::{Item, StreamCall};
use std::alloc::Global;

/// What kind of answer a reply is, which decides how it is reported.
#[derive(Clone, Copy, Debug, PartialEq, Eq)]
pub enum Reporting {
    /// Keys or chunks that were made.
    Made,
    /// Keys that were handed out.
    Handed,
    /// The number of ready keys.
    Ready,
    /// The answer to a call on a stream.
    Stream(StreamCall),
    /// What a node has of a key.
    Shown { node: NodeNo, name: KeyName },
    /// A plan and the lanes that are short. A quiet plan reports nothing if there is nothing to do.
    Ticked { node: NodeNo, quiet: bool },
}

// A list of one item or of none.
fn listed(alloc: Global, item: Option<Item>) -> Result<Items<Item>, Memory>
    ensures { IfOk result (λ items. items ≡ option_to_list item) }
{
    let mut items = Items::new(alloc);
    match item {
        Some(item) => {
            items.push(item)?;
            Ok(items)
        }
        None => Ok(items),
    }
}

impl Reporting {
    /// The items that report a reply. Its keys and bytes move into them.
    pub fn items(self, alloc: Global, reply: Reply) -> Result<Items<Item>, Memory>
        ensures { IfOk result (λ items. items ≡ reported self (Replies reply)) }
    {
        match self {
            Reporting::Made => listed(alloc, made_item(&reply)),
            Reporting::Handed => listed(alloc, handed_item(reply)),
            Reporting::Ready => listed(alloc, ready_item(&reply)),
            Reporting::Stream(call) => listed(alloc, stream_item(call, reply)),
            Reporting::Shown { node, name } => listed(alloc, shown_item(node, name, reply)),
            Reporting::Ticked { node, quiet } => tick_items(alloc, node, quiet, &reply),
        }
    }
}
