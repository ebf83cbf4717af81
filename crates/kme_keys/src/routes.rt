// Routes from a master's node to the homes of several slaves.
ghost use Rattle.std.specs.Prelude.{◌≡◌, ℕ, Bool, IfOk, is_some, Some};
ghost use Rattle.declared_site.specs.SiteOf.{IsDeclared, site_of};
ghost use Rattle.net_model.specs.Groups.{routes_to};
ghost use Rattle.kme_base.specs.Up.{AreUp};

use declared_site::Site;
use kme_base::{home, route_between};
use qkd_base::{Memory, NodeNo, Route, SaeNo};
use std::alloc::Global;

/// Whether there is a route to each slave's home. It allocates nothing.
pub fn has_routes(site: &Site, up: u32, me: NodeNo, slaves: &[SaeNo]) -> bool
    requires { IsDeclared site.now }
    ensures { (is_up : ℕ → Bool) → AreUp up is_up → result ≡ is_some (routes_to (site_of site.now) is_up me slaves.now) }
{
    for slave in slaves {
        match route_between(site, up, me, home(site, *slave)) {
            None => return false,
            Some(_) => {}
        }
    }
    true
}

/// Each slave with the route to its home. `None` if some home has no route.
pub fn routes(
    alloc: Global,
    site: &Site,
    up: u32,
    me: NodeNo,
    slaves: &[SaeNo],
) -> Result<Vec<(SaeNo, Route)>, Memory>
    requires { IsDeclared site.now }
    ensures { IfOk result (λ routes. (is_up : ℕ → Bool) → AreUp up is_up → routes_to (site_of site.now) is_up me slaves.now ≡ Some routes.items) }
{
    let mut routes = Vec::new(alloc);
    for slave in slaves {
        match route_between(site, up, me, home(site, *slave)) {
            None => return Err(Memory),
            Some(route) => routes.push((*slave, route))?,
        }
    }
    Ok(routes)
}
