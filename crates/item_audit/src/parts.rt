// Rule 7, as to one item: ends of links, and lanes.
ghost use Rattle.std.specs.Prelude.{◌≡◌};
ghost use Rattle.item_audit.specs.Parts.{is_among, takes_at, puts_from, is_part};

use crate::lane_ends::sender;
use declared_site::Site;
use qkd_base::{LinkNo, NodeNo};
use run_types::{Command, End, Ends, Item};

/// Whether an end is one of these.
pub fn is_among(ends: Ends, end: End) -> bool
    ensures { result ≡ is_among ends end }
{
    match ends {
        Ends::Both => true,
        Ends::Low => matches!(end, End::Low),
        Ends::High => matches!(end, End::High),
    }
}

// Whether blocks for these ends of a link may give the item.
fn takes_at(line: LinkNo, ends: Ends, item: &Item) -> bool
    ensures { result ≡ takes_at line ends item.now }
{
    match item {
        Item::Took { link, end, .. } => *link == line && is_among(ends, *end),
        Item::TookNone { link, end, .. } => *link == line && is_among(ends, *end),
        _ => true,
    }
}

// Whether a tick of this node may give the item, as far as lanes are named.
fn puts_from(site: &Site, node: NodeNo, item: &Item) -> bool
    ensures { result ≡ puts_from site.now node item.now }
{
    match item {
        Item::Short { lane, .. } => sender(site, lane) == u64::from(node.get()),
        Item::Sent { lane, .. } => sender(site, lane) == u64::from(node.get()),
        Item::Unsent { lane, .. } => sender(site, lane) == u64::from(node.get()),
        _ => true,
    }
}

/// Whether a line may give the item, as far as ends of links and lanes are named.
pub fn is_part(site: &Site, command: &Command, item: &Item) -> bool
    ensures { result ≡ is_part site.now command.now item.now }
{
    match command {
        Command::Bits { link, ends, .. } => takes_at(*link, *ends, item),
        Command::Tick { node } => puts_from(site, *node, item),
        _ => true,
    }
}
