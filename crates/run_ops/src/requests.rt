// The items that report the answers to applications and operators.
ghost use Rattle.std.specs.Prelude.{◌≡◌, ℕ, List, [], ◌∷◌};
ghost use Rattle.std.specs.Option.{option_to_list};
ghost use Rattle.net_model.specs.declared.reply.Reply.{Reply as ReplyValue};
ghost use Rattle.net_model.specs.World.{World};
ghost use Rattle.net_model.specs.Ledger.{ledger};
ghost use Rattle.net_model.specs.Action.{Replies};
ghost use Rattle.run_types.specs.declared.item.Item.TheVariants as items;
ghost use Rattle.run_model.specs.Refusals.{refused_by, reported_by};
ghost use Rattle.run_model.specs.Outcomes.{made_items, handed_items, status_items, stream_items, http_items, show_items, ledger_items, answer_to, chunk_in};

use crate::refusals::{refusal_of, refused_item};
use net_model::{Counts4, Reply};
use qkd_base::{KeyName, Lane, NodeNo, Octets};
use run_types::{Chunk, Item, StreamAnswer, StreamCall};

/// The item that reports how many keys or chunks were made, and the first one's name.
pub fn made_item(reply: &Reply) -> Option<Item>
    ensures { option_to_list result ≡ made_items (Replies reply.now) }
{
    match reply {
        Reply::MadeKeys { count, first } => Some(Item::Made {
            count: *count,
            first: *first,
        }),
        other => refused_item(other),
    }
}

/// The item that reports the keys that were handed out.
pub fn handed_item(reply: Reply) -> Option<Item>
    ensures { option_to_list result ≡ handed_items (Replies reply) }
{
    match reply {
        Reply::Handed { keys } => Some(Item::Keys(keys)),
        other => refused_item(&other),
    }
}

/// The item that reports how many keys are ready.
pub fn ready_item(reply: &Reply) -> Option<Item>
    ensures { option_to_list result ≡ status_items (Replies reply.now) }
{
    match reply {
        Reply::ReadyCount { count } => Some(Item::Ready { count: *count }),
        other => refused_item(other),
    }
}

// The chunk with these bytes, or none if there are no bytes.
fn chunk_in(index: u32, bytes: Octets) -> Option<Chunk>
    ensures { result ≡ chunk_in index bytes }
{
    if bytes.is_empty() {
        None
    } else {
        Some(Chunk { index, bytes })
    }
}

// The answer to a call, in the form that this call has.
fn answer_to(
    call: StreamCall,
    status: u8,
    stream: Option<KeyName>,
    index: u32,
    bytes: Octets,
) -> StreamAnswer
    ensures { result ≡ answer_to call status stream index bytes }
{
    match call {
        StreamCall::Open { .. } | StreamCall::Join { .. } => {
            StreamAnswer::OpenConnect { status, stream }
        }
        StreamCall::Get { .. } => {
            let chunk = chunk_in(index, bytes);
            StreamAnswer::GetKey { status, chunk }
        }
        StreamCall::Close { .. } => StreamAnswer::Close { status },
    }
}

/// The item that reports the answer to a call on a stream (ETSI GS QKD 004 V2.1.1, clause 6).
pub fn stream_item(call: StreamCall, reply: Reply) -> Option<Item>
    ensures { option_to_list result ≡ stream_items call (Replies reply) }
{
    match reply {
        Reply::Stream {
            status,
            stream,
            index,
            bytes,
        } => Some(Item::Stream(answer_to(call, status, stream, index, bytes))),
        other => refused_item(&other),
    }
}

/// The item that reports what a node has of a key.
pub fn shown_item(node: NodeNo, name: KeyName, reply: Reply) -> Option<Item>
    ensures { option_to_list result ≡ show_items node name (Replies reply) }
{
    match reply {
        Reply::Shown { held, bytes } => Some(Item::Shown {
            node,
            name,
            held,
            bytes,
        }),
        other => {
            let refusal = refusal_of(&other)?;
            Some(Item::NotShown {
                node,
                name,
                refusal,
            })
        }
    }
}

/// The item that reports the status and the body with which a request over HTTP was answered.
pub fn http_item(node: NodeNo, status: u16, body: Octets) -> Item
    ensures item { result ≡ items.Http node status body }
    ensures replied { (response : ReplyValue → ℕ × List ℕ) (reply : ReplyValue) → response reply ≡ (status, body) → result ∷ [] ≡ http_items node response (Replies reply) }
{
    Item::Http { node, status, body }
}

/// The item that reports the network's count of a lane's bytes. It takes the place of the counts that the manager of
/// the lane's sender replied.
pub fn ledger_item(lane: Lane, counts: Counts4, reply: &Reply) -> Option<Item>
    ensures { (world : World) → ledger world lane ≡ counts → option_to_list result ≡ ledger_items lane world (Replies reply.now) }
{
    match reply {
        Reply::Counted { .. } => Some(Item::Counted { lane, counts }),
        other => {
            let refusal = refusal_of(other)?;
            Some(Item::NotCounted { lane, refusal })
        }
    }
}
