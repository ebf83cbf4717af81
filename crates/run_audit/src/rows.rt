// Which items a line of a scenario gives.
ghost use Rattle.std.specs.Prelude.{◌≡◌};
ghost use Rattle.run_audit.specs.Rows.{refusal_of, is_refused, is_down, is_stopped, is_memory, is_foreign, is_start, is_of_bits, is_made, is_of_tick, is_idle, is_passed, is_flipped, is_forged, is_crashed, is_armed, is_link_set, is_keys, is_ready, is_http, is_shown, is_ledger, is_connected, is_got, is_closed, gives, gives_at, link_of, is_on_link};

use crate::line_kind::LineKind;
use qkd_base::LinkNo;
use route_table::RouteTable;
use run_types::{Item, Refusal, StartResult, StreamAnswer};

// The refusal whose text an item has.
fn refusal_of(item: &Item) -> Option<Refusal>
    ensures { result ≡ refusal_of item.now }
{
    match item {
        Item::Refused(refusal) => Some(*refusal),
        Item::Start(StartResult::Stopped) => Some(Refusal::Stopped),
        Item::Start(StartResult::Memory) => Some(Refusal::Memory),
        _ => None,
    }
}

fn is_refused(item: &Item) -> bool
    ensures { result ≡ is_refused item.now }
{
    refusal_of(item).is_some()
}

fn is_down(refusal: Option<Refusal>) -> bool
    ensures { result ≡ is_down refusal }
{
    matches!(refusal, Some(Refusal::Down))
}

fn is_stopped(refusal: Option<Refusal>) -> bool
    ensures { result ≡ is_stopped refusal }
{
    matches!(refusal, Some(Refusal::Stopped))
}

fn is_memory(refusal: Option<Refusal>) -> bool
    ensures { result ≡ is_memory refusal }
{
    matches!(refusal, Some(Refusal::Memory))
}

fn is_foreign(item: &Item) -> bool
    ensures { result ≡ is_foreign item.now }
{
    matches!(item, Item::Start(StartResult::Foreign { .. }))
}

fn is_start(item: &Item) -> bool
    ensures { result ≡ is_start item.now }
{
    matches!(item, Item::Start(_))
}

fn is_of_bits(item: &Item) -> bool
    ensures { result ≡ is_of_bits item.now }
{
    matches!(item, Item::Took { .. } | Item::TookNone { .. })
}

fn is_made(item: &Item) -> bool
    ensures { result ≡ is_made item.now }
{
    matches!(item, Item::Made { .. })
}

// Whether an item is a tick's, or one of those that follow a tick's in the report.
fn is_of_tick(item: &Item) -> bool
    ensures { result ≡ is_of_tick item.now }
{
    matches!(
        item,
        Item::Ticked { .. }
            | Item::NotTicked { .. }
            | Item::Short { .. }
            | Item::Sent { .. }
            | Item::Unsent { .. }
    )
}

fn is_idle(item: &Item) -> bool
    ensures { result ≡ is_idle item.now }
{
    matches!(item, Item::Idle { .. })
}

fn is_passed(item: &Item) -> bool
    ensures { result ≡ is_passed item.now }
{
    matches!(item, Item::Passed { .. })
}

fn is_flipped(item: &Item) -> bool
    ensures { result ≡ is_flipped item.now }
{
    matches!(item, Item::Flipped { .. })
}

fn is_forged(item: &Item) -> bool
    ensures { result ≡ is_forged item.now }
{
    matches!(item, Item::Forged { .. })
}

fn is_crashed(item: &Item) -> bool
    ensures { result ≡ is_crashed item.now }
{
    matches!(item, Item::Crashed)
}

fn is_armed(item: &Item) -> bool
    ensures { result ≡ is_armed item.now }
{
    matches!(item, Item::Armed)
}

fn is_link_set(item: &Item) -> bool
    ensures { result ≡ is_link_set item.now }
{
    matches!(item, Item::LinkSet { .. })
}

fn is_keys(item: &Item) -> bool
    ensures { result ≡ is_keys item.now }
{
    matches!(item, Item::Keys(_))
}

fn is_ready(item: &Item) -> bool
    ensures { result ≡ is_ready item.now }
{
    matches!(item, Item::Ready { .. })
}

fn is_http(item: &Item) -> bool
    ensures { result ≡ is_http item.now }
{
    matches!(item, Item::Http { .. })
}

fn is_shown(item: &Item) -> bool
    ensures { result ≡ is_shown item.now }
{
    matches!(item, Item::Shown { .. } | Item::NotShown { .. })
}

fn is_ledger(item: &Item) -> bool
    ensures { result ≡ is_ledger item.now }
{
    matches!(item, Item::Counted { .. } | Item::NotCounted { .. })
}

// Whether an item is an OPEN_CONNECT that names a stream exactly if it has this status.
fn is_connected(at: u8, item: &Item) -> bool
    ensures { result ≡ is_connected at item.now }
{
    match item {
        Item::Stream(StreamAnswer::OpenConnect { status, stream }) => {
            (*status == at) == stream.is_some()
        }
        _ => false,
    }
}

// Whether an item is a GET_KEY that has a chunk exactly if its status is 0.
fn is_got(item: &Item) -> bool
    ensures { result ≡ is_got item.now }
{
    match item {
        Item::Stream(StreamAnswer::GetKey { status, chunk }) => (*status == 0) == chunk.is_some(),
        _ => false,
    }
}

fn is_closed(item: &Item) -> bool
    ensures { result ≡ is_closed item.now }
{
    matches!(item, Item::Stream(StreamAnswer::Close { .. }))
}

// Whether a line gives items of this item's row, or of another row with the same text.
fn gives(kind: &LineKind, item: &Item) -> bool
    ensures { result ≡ gives kind.now item.now }
{
    match kind {
        LineKind::Node => is_stopped(refusal_of(item)) || is_foreign(item),
        LineKind::Bits => is_of_bits(item),
        LineKind::Making => is_made(item) || is_refused(item),
        LineKind::Tick => is_of_tick(item) || is_idle(item),
        LineKind::Settle => is_of_tick(item) || is_passed(item),
        LineKind::Pass => is_passed(item),
        LineKind::Flip => is_flipped(item),
        LineKind::Forge => is_forged(item),
        LineKind::Crash => is_crashed(item) || is_down(refusal_of(item)),
        LineKind::Start => {
            is_start(item) || is_stopped(refusal_of(item)) || is_memory(refusal_of(item))
        }
        LineKind::Arming => is_armed(item),
        LineKind::LinkSetting => is_link_set(item),
        LineKind::Handing { .. } => is_keys(item) || is_refused(item),
        LineKind::Status => is_ready(item) || is_refused(item),
        LineKind::Http => is_http(item),
        LineKind::Opening => is_connected(1, item) || is_refused(item),
        LineKind::Joining => is_connected(0, item) || is_refused(item),
        LineKind::Getting { .. } => is_got(item) || is_refused(item),
        LineKind::Closing => is_closed(item) || is_refused(item),
        LineKind::Show => is_shown(item),
        LineKind::Ledger => is_ledger(item),
    }
}

/// Whether a line of this kind gives items of this item's row, or of another row with the same text. Without a line, none.
pub fn gives_at(kind: &Option<LineKind>, item: &Item) -> bool
    ensures { result ≡ gives_at kind.now item.now }
{
    match kind {
        Some(kind) => gives(kind, item),
        None => false,
    }
}

// The link that an item names, if it names one.
fn link_of(item: &Item) -> Option<LinkNo>
    ensures { result ≡ link_of item.now }
{
    match item {
        Item::Took { link, .. } => Some(*link),
        Item::TookNone { link, .. } => Some(*link),
        Item::Short { lane, .. } => Some(lane.link),
        Item::Sent { lane, .. } => Some(lane.link),
        Item::Unsent { lane, .. } => Some(lane.link),
        Item::Passed { lane, .. } => Some(lane.link),
        Item::Flipped { lane, .. } => Some(lane.link),
        Item::Forged { lane, .. } => Some(lane.link),
        Item::LinkSet { link, .. } => Some(*link),
        Item::Counted { lane, .. } => Some(lane.link),
        Item::NotCounted { lane, .. } => Some(lane.link),
        _ => None,
    }
}

/// Whether the link that an item names is declared. An item that names none passes.
pub fn is_on_link(routes: &RouteTable, item: &Item) -> bool
    ensures { result ≡ is_on_link routes.now item.now }
{
    match link_of(item) {
        Some(link) => routes.ends(link).is_some(),
        None => true,
    }
}
