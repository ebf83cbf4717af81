// Rule 12, as to one item: the names that it gives.
ghost use Rattle.std.specs.Prelude.{◌≡◌};
ghost use Rattle.std.specs.Option.{option_copied};
ghost use Rattle.sae_entitlements.specs.Grants.{home_of};
ghost use Rattle.item_audit.specs.Gifts.{given_from, may_give, given_at, given_at_home, given_by_open, given_by_join, given_by_call, is_noted, given_by_frame, given_by_item, given_by, given_if, bounded};

use crate::lane_ends::receiver;
use declared_site::Site;
use qkd_base::{KeyName, SaeNo};
use run_types::{Command, FrameResult, Item, PayloadKind, Refusal, StreamAnswer, StreamCall};

/// Names that a node gave, or may have given: how many, and the count of the first one, if it is known that they were given.
#[derive(Clone, Copy)]
pub struct Given {
    pub node: u64,
    pub first: Option<u64>,
    pub more: u64,
}

/// The number, but at most 2^64 - 1.
pub fn bounded(number: u128) -> u64
    ensures { result ≡ bounded number }
{
    if number <= u128::from(u64::MAX) {
        number as u64
    } else {
        u64::MAX
    }
}

// So many names of a node, from this one on.
fn given_from(first: &KeyName, more: u64) -> Given
    ensures { result ≡ given_from first.now more }
{
    Given {
        node: u64::from(first.node().get()),
        first: Some(first.count()),
        more,
    }
}

// Up to so many names of a node.
fn may_give(node: u64, more: u64) -> Given
    ensures { result ≡ may_give node more }
{
    Given {
        node,
        first: None,
        more,
    }
}

// The names that a line gives that makes keys or chunks.
fn given_at(node: u64, more: u64, item: &Item) -> Option<Given>
    ensures { result ≡ given_at node more item.now }
{
    match item {
        Item::Made { first, .. } => Some(given_from(first, more)),
        Item::Refused(Refusal::Stopped) => Some(may_give(node, more)),
        _ => None,
    }
}

// The names that are given at the home of a master.
fn given_at_home(site: &Site, master: SaeNo, more: u64, item: &Item) -> Option<Given>
    ensures { result ≡ given_at_home (home_of site.now.entitlements master) more item.now }
{
    match site.entitlements.home(master) {
        Ok(node) => given_at(u64::from(node.get()), more, item),
        Err(_) => None,
    }
}

// The name of a stream that a node opens.
fn given_by_open(node: u64, item: &Item) -> Option<Given>
    ensures { result ≡ given_by_open node item.now }
{
    match item {
        Item::Stream(
            StreamAnswer::OpenConnect {
                stream: Some(stream),
                ..
            },
        ) => Some(given_from(stream, 1)),
        Item::Refused(Refusal::Stopped) => Some(may_give(node, 1)),
        _ => None,
    }
}

// The name of a note that a node may give when a stream is joined.
fn given_by_join(node: u64, item: &Item) -> Option<Given>
    ensures { result ≡ given_by_join node item.now }
{
    match item {
        Item::Stream(_) => Some(may_give(node, 1)),
        Item::Refused(Refusal::Stopped) => Some(may_give(node, 1)),
        _ => None,
    }
}

// The name that a call on streams may give.
fn given_by_call(node: u64, call: &StreamCall, item: &Item) -> Option<Given>
    ensures { result ≡ given_by_call node call.now item.now }
{
    match call {
        StreamCall::Open { .. } => given_by_open(node, item),
        StreamCall::Join { .. } => given_by_join(node, item),
        _ => None,
    }
}

// Whether the target of such a fact gives a note.
fn is_noted(kind: PayloadKind) -> bool
    ensures { result ≡ is_noted kind }
{
    matches!(
        kind,
        PayloadKind::Key | PayloadKind::Chunk | PayloadKind::Part
    )
}

// The name of a note that a frame's receiver may give.
fn given_by_frame(node: u64, outcome: &FrameResult) -> Option<Given>
    ensures { result ≡ given_by_frame node outcome.now }
{
    match outcome {
        FrameResult::Taken { kind, .. } => {
            if is_noted(*kind) {
                Some(may_give(node, 1))
            } else {
                None
            }
        }
        FrameResult::Refused(Refusal::Stopped) => Some(may_give(node, 1)),
        _ => None,
    }
}

// The name that a frame's receiver may give, if the item is of one.
fn given_by_item(site: &Site, item: &Item) -> Option<Given>
    ensures { result ≡ given_by_item site.now item.now }
{
    match item {
        Item::Passed {
            lane,
            result: outcome,
            ..
        } => given_by_frame(receiver(site, lane), outcome),
        Item::Flipped {
            lane,
            result: outcome,
            ..
        } => given_by_frame(receiver(site, lane), outcome),
        Item::Forged {
            lane,
            result: outcome,
        } => given_by_frame(receiver(site, lane), outcome),
        _ => None,
    }
}

// The names that a line gives, or may give.
fn given_by(site: &Site, command: &Command, item: &Item) -> Option<Given>
    ensures { result ≡ given_by site.now command.now item.now }
{
    match command {
        Command::Fill { master, count, .. } => {
            given_at_home(site, *master, u64::from(*count), item)
        }
        Command::FillGroup {
            master,
            count,
            slaves,
            ..
        } => {
            let more = u128::from(*count) * (1 + slaves.len() as u128);
            given_at_home(site, *master, bounded(more), item)
        }
        Command::Feed { stream, count } => given_at(
            u64::from(stream.node().get()),
            u64::from(*count),
            item,
        ),
        Command::Stream { node, call } => given_by_call(u64::from(node.get()), call, item),
        _ => given_by_item(site, item),
    }
}

/// The names that an item tells of, given what its line asks for, if there is one.
pub fn given_if(site: &Site, command: &Option<&Command>, item: &Item) -> Option<Given>
    ensures { result ≡ given_if site.now (option_copied command.now) item.now }
{
    match command {
        Some(command) => given_by(site, command, item),
        None => None,
    }
}
