// Rules 16, 17, 18 and 20: what an item names of its line.
ghost use Rattle.std.specs.Prelude.{◌≡◌, true, false};
ghost use Rattle.item_audit.specs.Naming.{may_refuse_telling, responds_at, responds, may_refuse_tick, ticks_at, ticks_any, ticks, fits_bytes, fits_node, shows_at, shows, counts_at, sets_link, names_lane};

use crate::responses::is_response;
use net_model::Held;
use qkd_base::{KeyName, Lane, LinkNo, NodeNo};
use run_types::{Command, Item, Refusal};

// Whether what only tells may be refused so.
fn may_refuse_telling(refusal: Refusal) -> bool
    ensures { result ≡ may_refuse_telling refusal }
{
    matches!(refusal, Refusal::Down | Refusal::Memory)
}

// Whether a request to this node may give the item.
fn responds_at(at: NodeNo, item: &Item) -> bool
    ensures { result ≡ responds_at at item.now }
{
    match item {
        Item::Http { node, status, body } => {
            *node == at && is_response(*status, body.as_slice())
        }
        _ => true,
    }
}

/// Whether a line may give the item, as far as it is a request.
pub fn responds(command: &Command, item: &Item) -> bool
    ensures { result ≡ responds command.now item.now }
{
    match command {
        Command::Http { node, .. } => responds_at(*node, item),
        _ => true,
    }
}

// Whether a tick may be refused so.
fn may_refuse_tick(refusal: Refusal) -> bool
    ensures { result ≡ may_refuse_tick refusal }
{
    matches!(
        refusal,
        Refusal::Down | Refusal::Memory | Refusal::JournalFull { .. } | Refusal::Stopped
    )
}

// Whether a tick of this node may give the item.
fn ticks_at(at: NodeNo, item: &Item) -> bool
    ensures { result ≡ ticks_at at item.now }
{
    match item {
        Item::Ticked { node, .. } => *node == at,
        Item::Idle { node } => *node == at,
        Item::NotTicked { node, refusal } => *node == at && may_refuse_tick(*refusal),
        _ => true,
    }
}

// Whether a tick of some node may give the item.
fn ticks_any(item: &Item) -> bool
    ensures { result ≡ ticks_any item.now }
{
    match item {
        Item::NotTicked { refusal, .. } => may_refuse_tick(*refusal),
        _ => true,
    }
}

/// Whether a line may give the item, as far as nodes tick.
pub fn ticks(command: &Command, item: &Item) -> bool
    ensures { result ≡ ticks command.now item.now }
{
    match command {
        Command::Tick { node } => ticks_at(*node, item),
        Command::Settle { .. } => ticks_any(item),
        _ => true,
    }
}

// Whether what a node holds of a key fits whether it has the key's bytes.
fn fits_bytes(what: Held, are_there: bool) -> bool
    ensures { result ≡ fits_bytes what are_there }
{
    match what {
        Held::Absent => !are_there,
        Held::Ready | Held::Made | Held::Kept => are_there,
        _ => true,
    }
}

// Whether what a node holds of a key fits whether the node named it.
fn fits_node(what: Held, is_own: bool) -> bool
    ensures { result ≡ fits_node what is_own }
{
    match what {
        Held::Ready | Held::Made => is_own,
        Held::Kept | Held::Relayed => !is_own,
        _ => true,
    }
}

// Whether a show of this key at this node may give the item.
fn shows_at(at: NodeNo, key: KeyName, item: &Item) -> bool
    ensures { result ≡ shows_at at key item.now }
{
    match item {
        Item::Shown {
            node,
            name,
            held,
            bytes,
        } => {
            *node == at
                && *name == key
                && fits_bytes(*held, !bytes.is_empty())
                && fits_node(*held, *node == name.node())
        }
        Item::NotShown {
            node,
            name,
            refusal,
        } => *node == at && *name == key && may_refuse_telling(*refusal),
        _ => true,
    }
}

/// Whether a line may give the item, as far as it shows a key.
pub fn shows(command: &Command, item: &Item) -> bool
    ensures { result ≡ shows command.now item.now }
{
    match command {
        Command::Show { node, name } => shows_at(*node, *name, item),
        _ => true,
    }
}

// Whether a ledger of this lane may give the item.
fn counts_at(line: &Lane, item: &Item) -> bool
    ensures { result ≡ counts_at line.now item.now }
{
    match item {
        Item::Counted { lane, .. } => *lane == *line,
        Item::NotCounted { lane, refusal } => *lane == *line && may_refuse_telling(*refusal),
        _ => true,
    }
}

// Whether a line that sets a link up, or down, may give the item.
fn sets_link(line: LinkNo, goes_up: bool, item: &Item) -> bool
    ensures { result ≡ sets_link line goes_up item.now }
{
    match item {
        Item::LinkSet { link, up } => {
            if goes_up {
                *link == line && *up
            } else {
                *link == line && !*up
            }
        }
        _ => true,
    }
}

/// Whether a line may give the item, as far as it names a lane or a link.
pub fn names_lane(command: &Command, item: &Item) -> bool
    ensures { result ≡ names_lane command.now item.now }
{
    match command {
        Command::Ledger { lane } => counts_at(lane, item),
        Command::LinkUp { link } => sets_link(*link, true, item),
        Command::LinkDown { link } => sets_link(*link, false, item),
        _ => true,
    }
}
