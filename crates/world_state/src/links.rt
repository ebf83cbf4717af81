// The links that are up, as the bits of a number.
ghost use Rattle.std.specs.Prelude.{◌≡◌, ◌==◌, ◌<◌, ℕ, true, if◌then◌else◌};
ghost use Rattle.declared_site.specs.SiteOf.{site_of};
ghost use Rattle.net_model.specs.World.{Network, World};
ghost use Rattle.net_model.specs.Action.{SetLink, LinkSet};
ghost use Rattle.route_table.specs.Layer.{bit_is_set};
ghost use Rattle.run_ops.specs.Fitting.{is_fit};
ghost use Rattle.run_ops.specs.Acting.{IsReady, Does};
ghost use Rattle.world_state.specs.Armed.{most_armed};
ghost use Rattle.world_state.specs.Stands.{Stands};
ghost use Rattle.world_state.specs.Tallied.{Tallied};
ghost use Rattle.world_state.specs.Outside.{outside};

use crate::State;
use disk_model::Disk;
use qkd_base::LinkNo;
use source_devices::{Device, Entropy, Wire};

/// The same bits, but with this link up or down.
pub fn with_link(links: u32, link: LinkNo, up: bool) -> u32
    ensures { (other : ℕ) → other < 32 → bit_is_set result other ≡ (if other == link then up else bit_is_set links other) }
{
    if up {
        links | 1 << link.get()
    } else {
        links & !(1 << link.get())
    }
}

/// Sets a link up or down.
pub fn set_link<K: Disk + Drop, Q: Device + Drop, E: Entropy + Drop, X: Wire + Drop>(
    state: &mut State<K, Q, E, X>,
    link: LinkNo,
    up: bool,
)
    requires fit { is_fit (site_of state.old.site) (SetLink link up) ≡ true }
    requires ready { (net : Network) × (w : World) × IsReady (Stands (outside K.Disk Q.Device E.Entropy X.Wire)) state.old net w }
    ensures site { state.new.site ≡ state.old.site }
    ensures armed { most_armed K.Disk state.new.posts.items ≡ most_armed K.Disk state.old.posts.items }
    ensures done { (net : Network) (w : World) → IsReady (Stands (outside K.Disk Q.Device E.Entropy X.Wire)) state.old net w
        → Does (Stands (outside K.Disk Q.Device E.Entropy X.Wire)) (Tallied (outside K.Disk Q.Device E.Entropy X.Wire)) state.old state.new net w (SetLink link up) LinkSet }
{
    state.up = with_link(state.up, link, up);
}
