// Rule 7, as to turns: which item a line may give next.
ghost use Rattle.std.specs.Prelude.{◌≡◌, ◌||◌};
ghost use Rattle.std.specs.Option.{option_copied};
ghost use Rattle.whole_audit.specs.Turns.{gives_block, comes_short, gives_tick, comes_next, is_over, ticks_next, is_ticking, gives_settle, gives, gives_if, stands_behind, follows_frame};

use crate::rests::Rest;
use declared_site::Site;
use item_audit::{lane_place, sender};
use qkd_base::{Lane, NodeNo};
use run_types::{Command, End, Item};

// Whether an end may tell of a block.
fn gives_block(end: End, rest: &Rest) -> bool
    ensures { result ≡ gives_block end rest.now }
{
    match end {
        End::Low => 0 < rest.low && rest.high <= rest.low,
        End::High => rest.low < rest.high,
    }
}

// Whether a tick may tell of a lane that is short.
fn comes_short(lane: &Lane, rest: &Rest) -> bool
    ensures { result ≡ comes_short lane.now rest.now }
{
    rest.shorts && rest.link <= u64::from(lane.link.get())
}

// Whether a tick may give the item.
fn gives_tick(item: &Item, rest: &Rest) -> bool
    ensures { result ≡ gives_tick item.now rest.now }
{
    match item {
        Item::Ticked { .. } | Item::Idle { .. } | Item::NotTicked { .. } => 0 < rest.ticks,
        Item::Sent { .. } | Item::Unsent { .. } => 0 < rest.frames,
        Item::Short { lane, .. } => comes_short(lane, rest),
        _ => true,
    }
}

// Whether a frame may come next.
fn comes_next(lane: &Lane, number: u32, rest: &Rest) -> bool
    ensures { result ≡ comes_next lane.now number rest.now }
{
    let place = lane_place(lane);
    rest.lane < place || (rest.lane == place && rest.number <= u64::from(number))
}

// Whether a tick has told of all that it puts, or lacks.
fn is_over(rest: &Rest) -> bool
    ensures { result ≡ is_over rest.now }
{
    rest.frames == 0 && !rest.lacks
}

// Whether a node may tick next in a settle.
fn ticks_next(node: NodeNo, rest: &Rest) -> bool
    ensures { result ≡ ticks_next node rest.now }
{
    is_over(rest)
        && if rest.passing {
            rest.waiting == 0 && 0 < rest.rounds
        } else {
            rest.node <= u64::from(node.get())
        }
}

// Whether a lane leaves the node that ticked last.
fn is_ticking(site: &Site, lane: &Lane, rest: &Rest) -> bool
    ensures { result ≡ is_ticking site.now lane.now rest.now }
{
    u128::from(sender(site, lane)) + 1 == u128::from(rest.node)
}

// Whether a settle may give the item.
fn gives_settle(site: &Site, item: &Item, rest: &Rest) -> bool
    ensures { result ≡ gives_settle site.now item.now rest.now }
{
    match item {
        Item::Ticked { node, .. } => ticks_next(*node, rest),
        Item::NotTicked { node, .. } => ticks_next(*node, rest),
        Item::Short { lane, .. } => comes_short(lane, rest) && is_ticking(site, lane, rest),
        Item::Sent { lane, .. } => 0 < rest.frames && is_ticking(site, lane, rest),
        Item::Unsent { lane, .. } => 0 < rest.frames && is_ticking(site, lane, rest),
        Item::Passed { lane, number, .. } => {
            is_over(rest) && 0 < rest.waiting && comes_next(lane, *number, rest)
        }
        _ => true,
    }
}

// Whether a line may give the item.
fn gives(site: &Site, command: &Command, item: &Item, rest: &Rest) -> bool
    ensures { result ≡ gives site.now command.now item.now rest.now }
{
    match command {
        Command::Bits { .. } => match item {
            Item::Took { end, .. } => gives_block(*end, rest),
            Item::TookNone { end, .. } => gives_block(*end, rest),
            _ => true,
        },
        Command::Tick { .. } => gives_tick(item, rest),
        Command::Settle { .. } => gives_settle(site, item, rest),
        _ => true,
    }
}

/// Whether the item may be given, given what its line asks for, if there is one.
pub fn gives_if(site: &Site, command: &Option<&Command>, item: &Item, rest: &Rest) -> bool
    ensures { result ≡ gives_if site.now (option_copied command.now) item.now rest.now }
{
    match command {
        Some(command) => gives(site, command, item, rest),
        None => true,
    }
}

// Whether a frame may stand behind those that its tick put before.
fn stands_behind(lane: &Lane, offset: u64, rest: &Rest) -> bool
    ensures { result ≡ stands_behind lane.now offset rest.now }
{
    let link = u64::from(lane.link.get());
    rest.shorts || rest.link < link || (rest.link == link && rest.offset <= offset)
}

// Whether the item, if it is of a frame that is put, stands behind those that its tick put before.
fn follows_frame(item: &Item, rest: &Rest) -> bool
    ensures { result ≡ follows_frame item.now rest.now }
{
    match item {
        Item::Sent { lane, offset, .. } => stands_behind(lane, *offset, rest),
        Item::Unsent { lane, offset, .. } => stands_behind(lane, *offset, rest),
        _ => true,
    }
}

/// Whether the item stands in a block, or behind the frames that its tick put before.
pub fn is_in_turn(inside: bool, item: &Item, rest: &Rest) -> bool
    ensures { result ≡ (inside || follows_frame item.now rest.now) }
{
    inside || follows_frame(item, rest)
}
