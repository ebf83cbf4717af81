// How a plan is made, end by end.
ghost use Rattle.std.specs.Prelude.{◌≡◌, ◌+◌, ◌≤◌, ◌<◌, ◌++◌, ◌∷◌, [], ℕ, Bool, nat_lt, map, filter, OnOk, if◌then◌else◌};
ghost use Rattle.net_model.specs.declared.record.Record.TheVariants.{Lease};
ghost use Rattle.net_model.specs.Plan.{raise};
ghost use Rattle.net_model.specs.View.{View, received_of, Port};
ghost use Rattle.net_model.specs.Window.{age, repeats_on, repeat_of};
ghost use Rattle.route_table.specs.Layer.{bit_is_set};
ghost use Rattle.kme_base.specs.Up.{AreUp};
ghost use Rattle.declared_site.specs.SiteOf.{site_of};
ghost use Rattle.kme_base.specs.Places.{ports_in};
ghost use Rattle.kme_relay.specs.Keeps.{Knows};
ghost use Rattle.kme_relay.specs.Adds.{AddsOrders, AddsEnd, AddsEnds};
ghost use Rattle.kme_relay.specs.UnderWay.{AreFronts};

use crate::Fronts;
use crate::draft::Draft;
use crate::wanted::{add_acks, add_facts};
use declared_site::Site;
use kme_base::{LinkEnd, receiver};
use net_model::{Record, Records, Repeat, Repeats};
use qkd_base::{Lane, LinkNo, Memory, Replica};
use relay_core::Known;
use resend_window::Window;
use std::alloc::Global;

/// The parts of a plan: the records of leases, the frames that are sent again, and the orders.
#[derive(Debug, Drop)]
pub struct Parts {
    pub batch: Records,
    pub repeats: Repeats,
    pub draft: Draft,
}

// Whether a link is up.
fn is_up(up: u32, link: LinkNo) -> bool
    ensures { (is_up : ℕ → Bool) → AreUp up is_up → result ≡ is_up link }
{
    let number = link.get();
    up & (1u32 << number) != 0
}

// The least multiple of the lease size that isn't below `end`, or all bytes received if these are fewer.
fn raised(end: u64, received: u64) -> u64
    requires { end ≤ 524288 }
    ensures { result ≡ raise end received }
{
    received.min(4096 * ((end + 4095) / 4096))
}

// Adds the record of the lease that the orders of an end need, if its present lease doesn't suffice.
fn add_lease(batch: &mut Records, end: &LinkEnd, used: u64) -> Result<(), Memory>
    requires { used ≤ received_of end.now.port }
    ensures { OnOk result (batch.new ≡ batch.old ++ (if nat_lt end.now.port.lease used then Lease end.now.port.lane (raise used (received_of end.now.port)) ∷ [] else [])) }
{
    let received = end.received();
    if end.lease() < used {
        batch.push(Record::Lease {
            lane: end.lane(),
            end: raised(used, received),
        })?;
    }
    Ok(())
}

// Appends repeats.
fn append(repeats: &mut Repeats, more: &[Repeat]) -> Result<(), Memory>
    ensures { OnOk result (repeats.new ≡ repeats.old ++ more.now) }
{
    for repeat in more {
        repeats.push(repeat.copy()?)?;
    }
    Ok(())
}

// Adds the frames that are sent again on a lane.
fn add_repeats(repeats: &mut Repeats, window: &Window, lane: Lane) -> Result<(), Memory>
    ensures { OnOk result (repeats.new ≡ repeats.old ++ map repeat_of (repeats_on (map age window.now.volatile.window) lane)) }
{
    let more = window.repeats(lane)?;
    append(repeats, more.as_slice())
}

// Adds the orders of a lane.
fn add_orders(
    draft: &mut Draft,
    site: &Site,
    known: &Known,
    window: &Window,
    fronts: &Fronts,
    end: &LinkEnd,
) -> Result<(), Memory>
    requires { AreFronts (site_of site.now) known.now.me known.now.acked known.now.facts window.now.volatile fronts.now }
    ensures orders { OnOk result ((v : View) → Knows v known.now window.now → AddsOrders (site_of site.now) v end.now.port draft.old draft.new) }
    ensures bound { OnOk result (draft.new.used ≤ received_of end.now.port) }
{
    let to = receiver(site, end.lane());
    let lane = end.lane();
    let received = end.received();
    draft.begin(end.planned());
    add_acks(draft, window, &lane, received)?;
    add_facts(draft, known, window, &lane, to, fronts.get(&lane), received)?;
    Ok(())
}

// Adds the plan of one end.
fn add_end(
    parts: &mut Parts,
    site: &Site,
    known: &Known,
    window: &Window,
    fronts: &Fronts,
    end: &LinkEnd,
) -> Result<(), Memory>
    requires { AreFronts (site_of site.now) known.now.me known.now.acked known.now.facts window.now.volatile fronts.now }
    ensures { OnOk result ((v : View) → Knows v known.now window.now → AddsEnd (site_of site.now) v end.now.port parts.old parts.new) }
{
    add_repeats(&mut parts.repeats, window, end.lane())?;
    add_orders(&mut parts.draft, site, known, window, fronts, end)?;
    add_lease(&mut parts.batch, end, parts.draft.used)?;
    Ok(())
}

/// Adds the plans of all ends whose links are up.
pub fn add_ends(
    parts: &mut Parts,
    site: &Site,
    up: u32,
    known: &Known,
    window: &Window,
    fronts: &Fronts,
    ends: &[LinkEnd],
) -> Result<(), Memory>
    requires { AreFronts (site_of site.now) known.now.me known.now.acked known.now.facts window.now.volatile fronts.now }
    ensures { OnOk result ((v : View) (is_up : ℕ → Bool) → Knows v known.now window.now → AreUp up is_up
        → AddsEnds (site_of site.now) v (filter (λ p. is_up p.lane.link) (ports_in ends.now)) parts.old parts.new) }
{
    for end in ends {
        if is_up(up, end.lane().link) {
            add_end(parts, site, known, window, fronts, end)?;
        }
    }
    Ok(())
}

impl Parts {
    /// The empty plan. It allocates nothing.
    pub fn new(alloc: Global) -> Self
        ensures { (result.batch ≡ []) × (result.repeats ≡ []) × (result.draft.orders ≡ []) × (result.draft.shorts ≡ []) }
    {
        Parts {
            batch: Records::new(alloc),
            repeats: Repeats::new(alloc),
            draft: Draft::new(alloc),
        }
    }
}
