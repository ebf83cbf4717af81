// Rule 12: what is made.
ghost use Rattle.std.specs.Prelude.{◌≡◌};
ghost use Rattle.item_audit.specs.Making.{may_refuse_fill, may_refuse_feed, are_made, fills, feeds, makes};

use crate::entitled::{is_at_home, is_entitled, may_share};
use qkd_base::{KeyName, NameKind, NodeNo, SaeNo};
use run_types::{Command, Item, Refusal};
use sae_entitlements::Entitlements;

// Whether a fill may be refused so.
fn may_refuse_fill(are_allowed: bool, refusal: Refusal) -> bool
    ensures { result ≡ may_refuse_fill are_allowed refusal }
{
    match refusal {
        Refusal::Down => true,
        Refusal::NotAllowed => !are_allowed,
        Refusal::NoRoute
        | Refusal::PoolFull
        | Refusal::Memory
        | Refusal::JournalFull { .. }
        | Refusal::NoRandom
        | Refusal::Stopped => are_allowed,
        _ => false,
    }
}

// Whether a feed may be refused so.
fn may_refuse_feed(refusal: Refusal) -> bool
    ensures { result ≡ may_refuse_feed refusal }
{
    match refusal {
        Refusal::UnknownStream => true,
        Refusal::NotAllowed => false,
        _ => may_refuse_fill(true, refusal),
    }
}

// Whether so many were made as asked for, and the first has the name of a key.
fn are_made(asked: u16, made: u16, first: &KeyName) -> bool
    ensures { result ≡ are_made asked made first.now }
{
    made == asked && matches!(first.kind(), NameKind::Key)
}

// Whether a fill of this master may give the item.
fn fills(grants: &Entitlements, are_allowed: bool, master: SaeNo, count: u16, item: &Item) -> bool
    ensures { result ≡ fills grants.now are_allowed master count item.now }
{
    match item {
        Item::Made { count: made, first } => {
            are_allowed && are_made(count, *made, first) && is_at_home(grants, first.node(), master)
        }
        Item::Refused(refusal) => may_refuse_fill(are_allowed, *refusal),
        _ => true,
    }
}

// Whether a feed of a stream of this node may give the item.
fn feeds(node: NodeNo, count: u16, item: &Item) -> bool
    ensures { result ≡ feeds node count item.now }
{
    match item {
        Item::Made { count: made, first } => are_made(count, *made, first) && first.node() == node,
        Item::Refused(refusal) => may_refuse_feed(*refusal),
        _ => true,
    }
}

/// Whether a line may give the item, as far as it makes keys or chunks.
pub fn makes(grants: &Entitlements, command: &Command, item: &Item) -> bool
    ensures { result ≡ makes grants.now command.now item.now }
{
    match command {
        Command::Fill {
            master,
            slave,
            count,
            ..
        } => fills(
            grants,
            is_entitled(grants, *master, *slave),
            *master,
            *count,
            item,
        ),
        Command::FillGroup {
            master,
            count,
            slaves,
            ..
        } => fills(
            grants,
            may_share(grants, *master, slaves.as_slice()),
            *master,
            *count,
            item,
        ),
        Command::Feed { stream, count } => feeds(stream.node(), *count, item),
        _ => true,
    }
}
