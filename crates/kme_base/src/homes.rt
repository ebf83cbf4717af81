// Homes of applications, and which applications may have keys.
ghost use Rattle.std.specs.Prelude.{◌≡◌};
ghost use Rattle.std.specs.List.{list_all};
ghost use Rattle.sae_entitlements.specs.Grants.{is_allowed};
ghost use Rattle.net_model.specs.View.{View};
ghost use Rattle.net_model.specs.Pools.{is_entitled};
ghost use Rattle.net_model.specs.Groups.{is_entitled_group};
ghost use Rattle.declared_site.specs.SiteOf.{IsDeclared, site_of};

use declared_site::Site;
use qkd_base::{NodeNo, SaeNo};

// The first node.
fn first_node() -> NodeNo
    ensures { result ≡ 0 }
{
    NodeNo::new(0).unwrap()
}

/// The node where an application gets its keys. For a number without an application it is the first node.
pub fn home(site: &Site, sae: SaeNo) -> NodeNo
    ensures { result ≡ (site_of site.now).home sae }
{
    match site.entitlements.home(sae) {
        Ok(node) => node,
        Err(_) => first_node(),
    }
}

// Whether the site allows a pair of master and slave.
fn is_allowed(site: &Site, master: SaeNo, slave: SaeNo) -> bool
    requires { IsDeclared site.now }
    ensures { result ≡ is_allowed site.now.entitlements master slave }
{
    site.entitlements.may(master, slave).is_ok()
}

// Whether the site allows the pairs of a master with each of these slaves.
fn are_allowed(site: &Site, master: SaeNo, slaves: &[SaeNo]) -> bool
    requires { IsDeclared site.now }
    ensures { result ≡ list_all (λ slave. is_allowed site.now.entitlements master slave) slaves.now }
{
    slaves.iter().all(|slave| is_allowed(site, master, *slave))
}

/// Whether a caller may ask a node for keys of a master and a slave: the pair is allowed, and the caller is at home at the node
/// (ETSI GS QKD 014 V1.1.1, Get key).
pub fn is_entitled(site: &Site, me: NodeNo, caller: SaeNo, master: SaeNo, slave: SaeNo) -> bool
    requires { IsDeclared site.now }
    ensures { (v : View) → v.me ≡ me → result ≡ is_entitled (site_of site.now) v caller master slave }
{
    is_allowed(site, master, slave) && home(site, caller) == me
}

/// Whether a master may ask a node for group keys of these slaves: the master is at home at the node, and its pair with each
/// slave is allowed (ETSI GS QKD 014 V1.1.1, additional slave SAEs).
pub fn is_entitled_group(site: &Site, me: NodeNo, master: SaeNo, slaves: &[SaeNo]) -> bool
    requires { IsDeclared site.now }
    ensures { (v : View) → v.me ≡ me → result ≡ is_entitled_group (site_of site.now) v master slaves.now }
{
    home(site, master) == me && are_allowed(site, master, slaves)
}
