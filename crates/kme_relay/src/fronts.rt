// For each lane, the place up to which the facts that it owes are on their way.
ghost use Rattle.std.specs.Prelude.{◌≡◌, ◌<◌, if◌then◌else◌};
ghost use Rattle.net_model.specs.Site.{receiver};
ghost use Rattle.qkd_base.specs.Lane.{lane_eq, lane_place, reverse_lane};
ghost use Rattle.qkd_base.specs.declared.lane.Lane.{Lane as LaneValue};
ghost use Rattle.declared_site.specs.SiteOf.{site_of};
ghost use Rattle.kme_relay.specs.UnderWay.{front_of, AreUnderWay, AreFronts, AreFrontsBut};

use crate::wanted::{name_at, reversed};
use declared_site::Site;
use kme_base::{Change, LinkEnd, receiver};
use qkd_base::{Lane, NodeNo, Way};
use relay_core::Known;
use resend_window::Window;
use std::marker::Model;

/// For each lane, a place in the list of facts. Each fact before it that is owed to the lane's receiver is in the
/// window on that lane, or awaits its placing there. So a plan searches for facts to send only from that place on.
#[derive(Debug, Drop)]
pub struct Fronts {
    places: [usize; 64],
}

impl Model for Fronts {
    ghost use Rattle.std.specs.Prelude.{List, ℕ};

    ghost Value = { List ℕ };

    ghost view = { λ f. f.places };
}

// The number of a lane among all lanes.
fn lane_place(lane: &Lane) -> usize
    ensures place { result ≡ lane_place lane.now }
    ensures below { result < 64 }
{
    let way = match lane.way {
        Way::Up => 0,
        Way::Down => 1,
    };
    2 * usize::from(lane.link.get()) + way
}

// The first place, not below `from`, of a fact that must be sent on a lane, or the number of facts if there is none.
fn gone_on(known: &Known, window: &Window, lane: &Lane, to: NodeNo, from: usize) -> usize
    requires { AreUnderWay known.now.me known.now.acked known.now.facts window.now.volatile lane.now to from }
    ensures { AreUnderWay known.now.me known.now.acked known.now.facts window.now.volatile lane.now to result }
{
    let count = known.len();
    let mut front = from;
    while let Some(place) = known.next_owed(to, front) {
        match name_at(known, place) {
            None => return front,
            Some(name) => {
                if !window.holds(*lane, name) && !window.awaits(*lane, name, None) {
                    return place;
                }
                front = place + 1;
            }
        }
    }
    count
}

impl Fronts {
    /// Place 0 for each lane.
    pub fn new() -> Self
        ensures { (l : LaneValue) → front_of result l ≡ 0 }
    {
        Fronts { places: [0; 64] }
    }

    /// The place of a lane.
    pub fn get(&self, lane: &Lane) -> usize
        ensures { result ≡ front_of self.now lane.now }
    {
        self.places[lane_place(lane)]
    }

    // Sets the place of a lane.
    fn put(&mut self, lane: &Lane, place: usize)
        ensures { (l : LaneValue) → front_of self.new l ≡ (if lane_eq l lane.now then place else front_of self.old l) }
    {
        self.places[lane_place(lane)] = place;
    }

    // Moves the place of a lane on, past the facts that are on their way.
    fn go_on(&mut self, site: &Site, known: &Known, window: &Window, lane: &Lane)
        requires { AreFronts (site_of site.now) known.now.me known.now.acked known.now.facts window.now.volatile self.old }
        ensures { AreFronts (site_of site.now) known.now.me known.now.acked known.now.facts window.now.volatile self.new }
    {
        let to = receiver(site, *lane);
        let front = gone_on(known, window, lane, to, self.get(lane));
        self.put(lane, front);
    }

    // Moves the places of these ends' lanes on, past the facts that are on their way.
    fn go_on_all(&mut self, site: &Site, known: &Known, window: &Window, ends: &[LinkEnd])
        requires { AreFronts (site_of site.now) known.now.me known.now.acked known.now.facts window.now.volatile self.old }
        ensures { AreFronts (site_of site.now) known.now.me known.now.acked known.now.facts window.now.volatile self.new }
    {
        for end in ends {
            self.go_on(site, known, window, &end.lane());
        }
    }

    /// Updates the places after a change of the window. After a plan they move on past what was ordered. If frames of
    /// a fact were removed although the neighbour hasn't acknowledged it, the place of their lane goes back to 0. It
    /// allocates nothing.
    pub fn follow(
        &mut self,
        site: &Site,
        known: &Known,
        window: &Window,
        ends: &[LinkEnd],
        change: &Change,
    )
        requires { AreFrontsBut change.now (site_of site.now) known.now.me known.now.acked known.now.facts window.now.volatile self.old }
        ensures { AreFronts (site_of site.now) known.now.me known.now.acked known.now.facts window.now.volatile self.new }
    {
        match change {
            Change::Acknowledged { lane, name } => {
                if !known.is_acknowledged(*name) {
                    self.put(&reversed(lane), 0);
                }
            }
            Change::Planned => self.go_on_all(site, known, window, ends),
            Change::Same => {}
            Change::Received { .. } => {}
            Change::Noted => {}
        }
    }
}
