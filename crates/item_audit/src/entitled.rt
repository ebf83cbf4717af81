// Which applications may ask a node for keys.
ghost use Rattle.std.specs.Prelude.{◌≡◌};
ghost use Rattle.run_audit.specs.Tellings.{is_entitled};
ghost use Rattle.item_audit.specs.Entitled.{is_at_home, may_ask, may_share};

use qkd_base::{NodeNo, SaeNo};
use sae_entitlements::Entitlements;

/// Whether an application is at home at a node.
pub fn is_at_home(grants: &Entitlements, node: NodeNo, sae: SaeNo) -> bool
    ensures { result ≡ is_at_home grants.now node sae }
{
    match grants.home(sae) {
        Ok(home) => home == node,
        Err(_) => false,
    }
}

/// Whether a master may have keys for a slave.
pub fn is_entitled(grants: &Entitlements, master: SaeNo, slave: SaeNo) -> bool
    ensures { result ≡ is_entitled grants.now master slave }
{
    grants.may(master, slave).is_ok()
}

/// Whether the caller is at home at a node, and the master may have keys for the slave.
pub fn may_ask(
    grants: &Entitlements,
    node: NodeNo,
    caller: SaeNo,
    master: SaeNo,
    slave: SaeNo,
) -> bool
    ensures { result ≡ may_ask grants.now node caller master slave }
{
    is_at_home(grants, node, caller) && is_entitled(grants, master, slave)
}

/// Whether a master may have keys for each of these slaves.
pub fn may_share(grants: &Entitlements, master: SaeNo, slaves: &[SaeNo]) -> bool
    ensures { result ≡ may_share grants.now master slaves.now }
{
    slaves
        .iter()
        .all(|slave| is_entitled(grants, master, *slave))
}
