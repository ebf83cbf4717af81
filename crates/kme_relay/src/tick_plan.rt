// The plan of a tick, and the note of what became of it.
ghost use Rattle.std.specs.Prelude.{◌≡◌, ℕ, Bool, List, [], Ok};
ghost use Rattle.net_model.specs.declared.event.Event.TheVariants.{Note};
ghost use Rattle.net_model.specs.declared.placing.Placing.{Placing};
ghost use Rattle.net_model.specs.Decide.{decide};
ghost use Rattle.net_model.specs.Decision.{Does};
ghost use Rattle.net_model.specs.Plan.{plan};
ghost use Rattle.net_model.specs.Sealing.{Sealing};
ghost use Rattle.net_model.specs.Site.{Site as SiteValue};
ghost use Rattle.net_model.specs.View.{View};
ghost use Rattle.declared_site.specs.SiteOf.{site_of};
ghost use Rattle.kme_base.specs.Up.{AreUp};
ghost use Rattle.kme_base.specs.Steps.{IsStep};
ghost use Rattle.kme_base.specs.Places.{AreEnds};
ghost use Rattle.kme_relay.specs.Keeps.{Keeps};
ghost use Rattle.kme_relay.specs.UnderWay.{AreFronts};

use crate::Fronts;
use crate::draft::Draft;
use crate::parts::{Parts, add_ends};
use declared_site::Site;
use kme_base::{Change, Ports, Step};
use net_model::{Records, Reply};
use relay_core::Known;
use resend_window::Window;
use std::alloc::Global;

// The step of a plan of these parts.
fn step_of(parts: Parts) -> Step
    ensures { result ≡ record { batch = parts.batch; reply = Reply.Planned parts.draft.orders parts.repeats parts.draft.shorts; change = Change.Planned } }
{
    let Parts {
        batch,
        repeats,
        draft,
    } = parts;
    let Draft {
        orders,
        shorts,
        used: _,
        is_full: _,
    } = draft;
    Step {
        batch,
        reply: Reply::Planned {
            orders,
            repeats,
            shorts,
        },
        change: Change::Planned,
    }
}

/// The plan of a tick. For each end whose link is up, in order of link: the frames that are sent again, the orders,
/// the leases that the orders need, and whether the lane has too few bytes. Bit l of `up` says that link l is up.
pub fn plan(
    alloc: Global,
    site: &Site,
    up: u32,
    known: &Known,
    ports: &Ports,
    window: &Window,
    fronts: &Fronts,
) -> Result<Step, Reply>
    requires { AreFronts (site_of site.now) known.now.me known.now.acked known.now.facts window.now.volatile fronts.now }
    ensures step { (v : View) (is_up : ℕ → Bool) → Keeps v known.now ports.now window.now → AreUp up is_up → IsStep v [] (Does (plan (site_of site.now) is_up v)) result }

    // What the ends of links always satisfy.
    ensures ends { AreEnds ports.now.ports }
{
    let mut parts = Parts::new(alloc);
    match add_ends(
        &mut parts,
        site,
        up,
        known,
        window,
        fronts,
        ports.as_slice(),
    ) {
        Err(_) => Err(Reply::Memory),
        Ok(()) => Ok(step_of(parts)),
    }
}

/// The step that notes the placings of a completed tick. It allocates nothing.
pub fn note(alloc: Global) -> Step
    ensures { (site : SiteValue) (frames : Sealing) (is_up : ℕ → Bool) (v : View) (random : List ℕ) (placings : List Placing) → IsStep v placings (decide site frames is_up v random (Note placings)) (Ok result) }
{
    Step {
        batch: Records::new(alloc),
        reply: Reply::Noted,
        change: Change::Noted,
    }
}
