// Serving connections with the managers of a run's state.
ghost use Rattle.std.specs.Prelude.{◌≡◌, ℕ, ◌+◌, ◌*◌, ◌<◌, ◌≤◌, ◌^◌, [], length, slice_get, Some, Err, is_ok, vec_len, vec_capacity};
ghost use Rattle.declared_site.specs.SiteOf.{IsDeclared};
ghost use Rattle.net_model.specs.World.{Network, World};
ghost use Rattle.kme_serve.specs.declared.refusal.ServeRefusal.TheVariants as refusals;
ghost use Rattle.kme_serve.specs.Endless.{endless};
ghost use Rattle.world_state.specs.Armed.{most_armed};
ghost use Rattle.world_state.specs.Stands.{Stands};
ghost use Rattle.net_serve.specs.Asked.{DoorFailed};
ghost use Rattle.net_serve.specs.Served.{Serves};
ghost use Rattle.world_state.specs.Outside.{outside};

use crate::door_workers::serve_doors;
use crate::lent_managers::{put_back, take_out};
use crate::room::Room;
use crate::served_doors::ServedDoors;
use crate::{ServedManagers, ServedPost};
use disk_model::Disk;
use edge_io::Listener;
use kme_serve::{Connections, ServeRefusal};
use qkd014_api::Api;
use shared_objects::{close_all, open_all};
use source_devices::{Device, Entropy, Wire};
use std::alloc::Global;
use std::snapshot::Snapshot;
use std::sync::Wait;
use std::thread::Threads;
use world_state::State;

// Serves like `serve`, in memory that was allocated before.
fn serve_in_room<
    R: Threads + Wait + Sync,
    K: Disk + Drop + Send,
    Q: Device + Drop + Send,
    E: Entropy + Drop + Send,
    X: Wire + Drop + Send,
    D: Listener + Drop + Send + Sync,
>(
    rt: &R,
    alloc: Global,
    state: &mut State<K, Q, E, X>,
    api: &Api,
    doors: Vec<D>,
    connections: Connections,
    room: Room<ServedPost<K, E>, D>,
) -> (Result<(), ServeRefusal>, Vec<D>)
where
    D::In: Send,
    D::Out: Send,
    requires ready { (net : Network) × (w : World) × Stands (outside K.Disk Q.Device E.Entropy X.Wire) state.old net w }
    requires declared { IsDeclared state.old.site }
    requires node { 0 < length state.old.site.nodes }
    requires api { (api.now.nodes ≡ state.old.site.nodes) × (api.now.entitlements ≡ state.old.site.entitlements) }
    requires some { 0 < length doors.items }
    requires few { length doors.items ≤ 32 }
    requires connections { connections ≤ endless }
    requires fresh { (k : ℕ) (d : D) → slice_get doors.items k ≡ Some d → (D.accepted d + connections ≤ 2 ^ 48) × (D.finished d ≤ D.accepted d) }
    requires managers { (room.managers.items ≡ []) × (vec_len state.old.posts ≤ vec_capacity room.managers) }
    requires turnstiles { (room.turnstiles.items ≡ []) × (vec_len state.old.posts ≤ vec_capacity room.turnstiles) }
    requires kept { (room.kept.items ≡ []) × (vec_len state.old.posts ≤ vec_capacity room.kept) }
    requires workers { (room.workers.items ≡ []) × (vec_len doors ≤ vec_capacity room.workers) }
    requires back { (room.doors.items ≡ []) × (vec_len doors ≤ vec_capacity room.doors) }
    ensures doors { length result.1.items ≡ length doors.items }
    ensures site { state.new.site ≡ state.old.site }
    ensures armed { most_armed K.Disk state.new.posts.items ≡ most_armed K.Disk state.old.posts.items }
    ensures memory { result.0 ≡ Err refusals.Memory → (state.new ≡ state.old) × (result.1.items ≡ doors.items) }
    ensures served { ¬ (result.0 ≡ Err refusals.Memory) → (net : Network) (w : World) → Stands (outside K.Disk Q.Device E.Entropy X.Wire) state.old net w →
        Serves (outside K.Disk Q.Device E.Entropy X.Wire)
        (λ d. record { port = D.port d; accepted = D.accepted d; finished = D.finished d; waiting = D.waiting d; done = D.done d }) D.faults
        state.old state.new net w connections doors.items result.1.items (is_ok result.0) }
    ensures listen { result.0 ≡ Err refusals.Listen → DoorFailed D.faults doors.items result.1.items }
{
    let Room {
        mut managers,
        mut turnstiles,
        mut kept,
        workers,
        doors: mut back,
    } = room;
    let calls = doors.len() as u64 * (1000 * connections.count());
    let opening = Snapshot::of(&*state);
    let up = state.up;
    take_out(&opening, &state.site, up, &mut state.posts, &mut managers);
    let Ok(()) = open_all(alloc, &mut managers, &mut turnstiles, &mut kept, calls) else {
        close_all(turnstiles, kept, &mut managers);
        put_back(managers, &mut state.posts);
        return (Err(ServeRefusal::Memory), doors);
    };
    let lent = ServedManagers {
        site: &state.site,
        turnstiles: &turnstiles,
    };
    let served = ServedDoors { doors, connections };
    let ended = serve_doors(rt, alloc, &lent, api, &mut kept, served, workers, &mut back);
    close_all(turnstiles, kept, &mut managers);
    put_back(managers, &mut state.posts);
    (ended, back)
}

/// Serves `connections` connections at each door with the managers of a run's state. The door at index k gets the manager of node k modulo
/// the number of nodes. All doors are served at the same time if threads can be had, and each manager is asked one request at a time. The
/// doors come back in their order. `Listen` says that a door failed: the connections before the failure are served, and so are those of the
/// other doors. On `Memory` everything is as it was.
pub fn serve<
    R: Threads + Wait + Sync,
    K: Disk + Drop + Send,
    Q: Device + Drop + Send,
    E: Entropy + Drop + Send,
    X: Wire + Drop + Send,
    D: Listener + Drop + Send + Sync,
>(
    rt: &R,
    alloc: Global,
    state: &mut State<K, Q, E, X>,
    doors: Vec<D>,
    connections: Connections,
) -> (Result<(), ServeRefusal>, Vec<D>)
where
    D::In: Send,
    D::Out: Send,
    requires ready { (net : Network) × (w : World) × Stands (outside K.Disk Q.Device E.Entropy X.Wire) state.old net w }
    requires declared { IsDeclared state.old.site }
    requires node { 0 < length state.old.site.nodes }
    requires some { 0 < length doors.items }
    requires few { length doors.items ≤ 32 }
    requires connections { connections ≤ endless }
    requires fresh { (k : ℕ) (d : D) → slice_get doors.items k ≡ Some d → (D.accepted d + connections ≤ 2 ^ 48) × (D.finished d ≤ D.accepted d) }
    ensures doors { length result.1.items ≡ length doors.items }
    ensures site { state.new.site ≡ state.old.site }
    ensures armed { most_armed K.Disk state.new.posts.items ≡ most_armed K.Disk state.old.posts.items }
    ensures memory { result.0 ≡ Err refusals.Memory → (state.new ≡ state.old) × (result.1.items ≡ doors.items) }
    ensures served { ¬ (result.0 ≡ Err refusals.Memory) → (net : Network) (w : World) → Stands (outside K.Disk Q.Device E.Entropy X.Wire) state.old net w →
        Serves (outside K.Disk Q.Device E.Entropy X.Wire)
        (λ d. record { port = D.port d; accepted = D.accepted d; finished = D.finished d; waiting = D.waiting d; done = D.done d }) D.faults
        state.old state.new net w connections doors.items result.1.items (is_ok result.0) }
    ensures listen { result.0 ≡ Err refusals.Listen → DoorFailed D.faults doors.items result.1.items }
{
    let Ok(api) = Api::new(alloc, &state.site) else {
        return (Err(ServeRefusal::Memory), doors);
    };
    let Ok(room) = Room::new(alloc, state.posts.len(), doors.len()) else {
        return (Err(ServeRefusal::Memory), doors);
    };
    serve_in_room(rt, alloc, state, &api, doors, connections, room)
}
