// The nodes at the ends of a lane, and its place.
ghost use Rattle.std.specs.Prelude.{◌≡◌};
ghost use Rattle.qkd_base.specs.Lane.{lane_place, reverse_lane};
ghost use Rattle.run_audit.specs.Ledgers.{lane_from};
ghost use Rattle.run_audit.specs.Takings.{receiver};
ghost use Rattle.item_audit.specs.Sayings.{sender};

use declared_site::Site;
use qkd_base::{Lane, LinkNo, Way};
use run_types::End;

/// The receiver of a lane.
pub fn receiver(site: &Site, lane: &Lane) -> u64
    ensures { result ≡ receiver site.now.routes lane.now }
{
    match site.routes.ends(lane.link) {
        Some((low, high)) => match lane.way {
            Way::Up => u64::from(high.get()),
            Way::Down => u64::from(low.get()),
        },
        None => 0,
    }
}

/// The lane of the same link the other way.
pub fn reversed(lane: &Lane) -> Lane
    ensures { result ≡ reverse_lane lane.now }
{
    let way = match lane.way {
        Way::Up => Way::Down,
        Way::Down => Way::Up,
    };
    Lane {
        link: lane.link,
        way,
    }
}

/// The sender of a lane.
pub fn sender(site: &Site, lane: &Lane) -> u64
    ensures { result ≡ sender site.now lane.now }
{
    receiver(site, &reversed(lane))
}

/// The place of a lane among all lanes.
pub fn lane_place(lane: &Lane) -> u64
    ensures { result ≡ lane_place lane.now }
{
    let way = match lane.way {
        Way::Up => 0,
        Way::Down => 1,
    };
    2 * u64::from(lane.link.get()) + way
}

/// The lane of a link whose sender is at this end.
pub fn lane_from(link: LinkNo, end: End) -> Lane
    ensures { result ≡ lane_from link end }
{
    let way = match end {
        End::Low => Way::Up,
        End::High => Way::Down,
    };
    Lane { link, way }
}
