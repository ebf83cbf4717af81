// Routes between nodes.
ghost use Rattle.std.specs.Prelude.{◌≡◌, ℕ, Bool};
ghost use Rattle.net_model.specs.Routes.{route};
ghost use Rattle.declared_site.specs.SiteOf.{IsDeclared, site_of};
ghost use Rattle.kme_base.specs.Up.{AreUp};

use declared_site::Site;
use qkd_base::{NodeNo, Route};

/// The shortest route from one node to another over links that are up. Of several shortest routes it is the first in the order
/// of their lists of node numbers. `None` if both nodes are the same, or if no route of at most 8 links exists. Bit l of `up`
/// says that link l is up.
pub fn route_between(site: &Site, up: u32, from: NodeNo, to: NodeNo) -> Option<Route>
    requires { IsDeclared site.now }
    ensures { (is_up : ℕ → Bool) → AreUp up is_up → result ≡ route (site_of site.now) is_up from to }
{
    match site.routes.route(up, from, to) {
        Ok(route) => Some(route),
        Err(_) => None,
    }
}
