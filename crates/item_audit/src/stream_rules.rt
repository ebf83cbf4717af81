// Rule 15: calls on streams.
ghost use Rattle.std.specs.Prelude.{◌≡◌};
ghost use Rattle.item_audit.specs.Streaming.{may_refuse_call, is_size, is_new_stream, is_opening, answers_open, is_named, answers_join, is_indexed, answers_get, answers_close, may_change, answers_call, answers_stream, streams};

use crate::entitled::may_ask;
use qkd_base::{KeyName, NameKind, NodeNo};
use run_types::{Chunk, Command, Item, Refusal, StreamAnswer, StreamCall};
use sae_entitlements::Entitlements;

// Whether a call may be refused so, by whether it may change anything.
fn may_refuse_call(may_change: bool, refusal: Refusal) -> bool
    ensures { result ≡ may_refuse_call may_change refusal }
{
    match refusal {
        Refusal::Down => true,
        Refusal::Memory | Refusal::JournalFull { .. } | Refusal::Stopped => may_change,
        _ => false,
    }
}

// Whether a stream's keys may have this size.
fn is_size(bits: u16) -> bool
    ensures { result ≡ is_size bits }
{
    64 <= bits && bits <= 4096 && bits % 8 == 0
}

// Whether a stream, if one is named, has a name of this node.
fn is_new_stream(node: NodeNo, stream: &Option<KeyName>) -> bool
    ensures { result ≡ is_new_stream node stream.now }
{
    match stream {
        Some(name) => name.node() == node && matches!(name.kind(), NameKind::Stream),
        None => true,
    }
}

// Whether an opening may have this status.
fn is_opening(may_ask: bool, bits: u16, status: u8) -> bool
    ensures { result ≡ is_opening may_ask bits status }
{
    if !may_ask {
        status == 8
    } else if !is_size(bits) {
        status == 7
    } else {
        status == 1 || status == 4
    }
}

// Whether an opening may be answered so.
fn answers_open(may_ask: bool, node: NodeNo, bits: u16, answer: &StreamAnswer) -> bool
    ensures { result ≡ answers_open may_ask node bits answer.now }
{
    match answer {
        StreamAnswer::OpenConnect { status, stream } => {
            is_opening(may_ask, bits, *status) && is_new_stream(node, stream)
        }
        _ => false,
    }
}

// Whether a stream, if one is named, is this one.
fn is_named(name: KeyName, stream: &Option<KeyName>) -> bool
    ensures { result ≡ is_named name stream.now }
{
    match stream {
        Some(named) => *named == name,
        None => true,
    }
}

// Whether a join of this stream may be answered so.
fn answers_join(stream: KeyName, answer: &StreamAnswer) -> bool
    ensures { result ≡ answers_join stream answer.now }
{
    match answer {
        StreamAnswer::OpenConnect {
            status,
            stream: named,
        } => {
            (*status == 0 || *status == 5 || *status == 7 || *status == 8 || *status == 9)
                && is_named(stream, named)
        }
        _ => false,
    }
}

// Whether a chunk, if there is one, has this index.
fn is_indexed(index: u32, chunk: &Option<Chunk>) -> bool
    ensures { result ≡ is_indexed index chunk.now }
{
    match chunk {
        Some(chunk) => chunk.index == index,
        None => true,
    }
}

// Whether the chunk at this index may be answered so.
fn answers_get(index: u32, answer: &StreamAnswer) -> bool
    ensures { result ≡ answers_get index answer.now }
{
    match answer {
        StreamAnswer::GetKey { status, chunk } => {
            (*status == 0
                || *status == 2
                || *status == 3
                || *status == 8
                || *status == 9
                || *status == 10)
                && is_indexed(index, chunk)
        }
        _ => false,
    }
}

// Whether a close may be answered so.
fn answers_close(answer: &StreamAnswer) -> bool
    ensures { result ≡ answers_close answer.now }
{
    match answer {
        StreamAnswer::Close { status } => *status == 0 || *status == 8 || *status == 9,
        _ => false,
    }
}

// Whether a call may change anything.
fn may_change(grants: &Entitlements, node: NodeNo, call: &StreamCall) -> bool
    ensures { result ≡ may_change grants.now node call.now }
{
    match call {
        StreamCall::Open { source, peer, bits } => {
            may_ask(grants, node, *source, *source, *peer) && is_size(*bits)
        }
        _ => true,
    }
}

// Whether a call may be answered so.
fn answers_call(
    grants: &Entitlements,
    node: NodeNo,
    call: &StreamCall,
    answer: &StreamAnswer,
) -> bool
    ensures { result ≡ answers_call grants.now node call.now answer.now }
{
    match call {
        StreamCall::Open { source, peer, bits } => answers_open(
            may_ask(grants, node, *source, *source, *peer),
            node,
            *bits,
            answer,
        ),
        StreamCall::Join { stream, .. } => answers_join(*stream, answer),
        StreamCall::Get { index, .. } => answers_get(*index, answer),
        StreamCall::Close { .. } => answers_close(answer),
    }
}

// Whether a call may give the item.
fn answers_stream(grants: &Entitlements, node: NodeNo, call: &StreamCall, item: &Item) -> bool
    ensures { result ≡ answers_stream grants.now node call.now item.now }
{
    match item {
        Item::Stream(answer) => answers_call(grants, node, call, answer),
        Item::Refused(refusal) => may_refuse_call(may_change(grants, node, call), *refusal),
        _ => true,
    }
}

/// Whether a line may give the item, as far as it calls on streams.
pub fn streams(grants: &Entitlements, command: &Command, item: &Item) -> bool
    ensures { result ≡ streams grants.now command.now item.now }
{
    match command {
        Command::Stream { node, call } => answers_stream(grants, *node, call, item),
        _ => true,
    }
}
