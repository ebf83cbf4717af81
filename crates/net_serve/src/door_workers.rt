// Workers serve the connections of their doors with managers that are behind turnstiles.
ghost use Rattle.std.specs.Prelude.{◌≡◌, ℕ, ◌+◌, ◌*◌, ◌<◌, ◌≤◌, ◌^◌, [], length, map, slice_get, Some, Err, is_ok, vec_len, vec_capacity};
ghost use Rattle.std.specs.List.{AllZip};
ghost use Rattle.declared_site.specs.SiteOf.{IsDeclared};
ghost use Rattle.turnstile.specs.Names.{opening};
ghost use Rattle.shared_objects.specs.Seats.{calls_at, IsOpened, HoldsAll};
ghost use Rattle.kme_serve.specs.declared.refusal.ServeRefusal.TheVariants as refusals;
ghost use Rattle.kme_serve.specs.Endless.{endless};
ghost use Rattle.net_serve.specs.Passes.{call_in};
ghost use Rattle.net_serve.specs.Asked.{HaveAsked, DoorFailed};

use crate::served_doors::ServedDoors;
use crate::worker_seats::{join_workers, seat_workers};
use crate::{Pass, ServedManagers, ServedPost};
use disk_model::Disk;
use edge_io::Listener;
use kme_serve::{ServeRefusal, Worker};
use qkd014_api::Api;
use shared_objects::Post as Kept;
use source_devices::Entropy;
use std::alloc::Global;
use std::sync::Wait;
use std::thread::Threads;

/// Worker k serves its connections at the door at index k with the manager of node k modulo the number of nodes. All workers run at the
/// same time if threads can be had. The doors come back in their order. If memory runs out, no manager was asked.
pub(crate) fn serve_doors<
    R: Threads + Wait + Sync,
    K: Disk + Drop + Send,
    E: Entropy + Drop + Send,
    D: Listener + Drop + Send + Sync,
>(
    rt: &R,
    alloc: Global,
    managers: &ServedManagers<K, E>,
    api: &Api,
    kept: &mut [Kept<ServedPost<K, E>>],
    served: ServedDoors<D>,
    mut workers: Vec<Worker<Pass<ServedPost<K, E>>, D>>,
    back: &mut Vec<D>,
) -> Result<(), ServeRefusal>
where
    D::In: Send,
    D::Out: Send,
    requires declared { IsDeclared managers.now.site.now }
    requires nodes { length managers.now.turnstiles.now ≡ length managers.now.site.now.nodes }
    requires node { 0 < length managers.now.turnstiles.now }
    requires charters { (v : ℕ) (t : _) → slice_get managers.now.turnstiles.now v ≡ Some t → ((opening t).site.value ≡ managers.now.site.now) × ((opening t).node ≡ v) }
    requires api { (api.now.nodes ≡ managers.now.site.now.nodes) × (api.now.entitlements ≡ managers.now.site.now.entitlements) }
    requires opened { AllZip (IsOpened (length served.doors.items * (1000 * served.connections))) managers.now.turnstiles.now kept.old }
    requires some { 0 < length served.doors.items }
    requires few { length served.doors.items ≤ 32 }
    requires connections { served.connections ≤ endless }
    requires fresh { (k : ℕ) (d : D) → slice_get served.doors.items k ≡ Some d → (D.accepted d + served.connections ≤ 2 ^ 48) × (D.finished d ≤ D.accepted d) }
    requires workers { (workers.items ≡ []) × (vec_len served.doors ≤ vec_capacity workers) }
    requires back { (back.old.items ≡ []) × (vec_len served.doors ≤ vec_capacity back.old) }
    ensures doors { length back.new.items ≡ length served.doors.items }
    ensures whole { AllZip HoldsAll managers.now.turnstiles.now kept.new }
    ensures memory { result ≡ Err refusals.Memory → (back.new.items ≡ served.doors.items) × ((v : ℕ) → calls_at v kept.new ≡ []) }
    ensures asked { ¬ (result ≡ Err refusals.Memory) → HaveAsked
        (λ d. record { port = D.port d; accepted = D.accepted d; finished = D.finished d; waiting = D.waiting d; done = D.done d }) D.faults
        managers.now.site.now.nodes managers.now.site.now.entitlements (length managers.now.turnstiles.now) served.connections served.doors.items back.new.items
        (λ v. map call_in (calls_at v kept.new)) (is_ok result) }
    ensures listen { result ≡ Err refusals.Listen → DoorFailed D.faults served.doors.items back.new.items }
{
    let ServedDoors { doors, connections } = served;
    let nodes = managers.turnstiles.len() as u8;
    let calls = 1000 * connections.count();
    seat_workers(managers, kept, doors, &mut workers, calls);
    let (ended, workers) = kme_serve::serve(rt, alloc, managers, api, workers, nodes, connections);
    join_workers(managers, kept, workers, back);
    match ended {
        Ok(_) => Ok(()),
        Err(refusal) => Err(refusal),
    }
}
