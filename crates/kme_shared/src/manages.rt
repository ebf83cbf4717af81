// Desks of managers.
ghost use Rattle.std.specs.Prelude.{◌≡◌, ℕ, List};
ghost use Rattle.net_model.specs.Site.{Site as SiteValue};
ghost use Rattle.declared_site.specs.SiteOf.{site_of};
ghost use Rattle.turnstile.specs.Turns.{turn_of};
ghost use Rattle.lane_shares.specs.declared.shares.Shares.{Shares as SharesValue};
ghost use Rattle.shared_objects.specs.Calling.{HasTurned};
ghost use Rattle.kme_shared.specs.Granting.{IsGranted};
ghost use Rattle.kme_shared.specs.Laws.{always, granted_by};

use disk_model::Disk;
use par_managers::{PlanAnswer, PlanDesk};
use source_devices::{Device, Entropy, Wire};
use turnstile::Machine;

/// A machine that is the desk of a node's manager.
pub trait Manages: Machine<Reply = PlanAnswer> {
    /// The declared site.
    ghost site: { Self → SiteValue };

    /// The manager's node.
    ghost node: { Self → ℕ };

    /// The count of issued bytes of each lane, by its place.
    ghost shares: { Self → List SharesValue };

    /// The frames that the manager's reply wants can leave the node, and the reply grants the bytes for them.
    ghost grants: { (m : Self) (request : Self.Request) (answer : _) → HasTurned (turn_of Self.charter Self.takes Self.turns) m request answer →
        IsGranted (site m) (node m) (shares m) answer.reply answer.granted.items };
}

impl<K: Disk + Drop, Q: Device + Drop, E: Entropy + Drop, X: Wire + Drop> Manages
    for PlanDesk<'_, K, Q, E, X> {
    ghost site = { λ d. site_of d.opening.value.site };

    ghost node = { λ d. d.node };

    ghost shares = { λ d. d.shares.now };

    ghost grants = { λ d request answer turned.
        always (λ m. (m.opening.value, m.node, m.shares.now)) (λ c a. IsGranted (site_of c.0.site) c.1 c.2 a.reply a.granted.items) (λ m q a n t. t.2) (λ m q a n t. granted_by t.1) d request answer turned };
}
