// The workers get their seats, and give them back.
ghost use Rattle.std.specs.Prelude.{◌≡◌, ℕ, ◌+◌, ◌*◌, ◌%◌, ◌<◌, ◌≤◌, ◌++◌, [], length, map, slice_get, Some, vec_len, vec_capacity};
ghost use Rattle.std.specs.List.{AllZip, AllByRecursion, flat_map, sum_by};
ghost use Rattle.turnstile.specs.Names.{opening};
ghost use Rattle.shared_objects.specs.Seats.{calls_at, budget_at, Belongs};
ghost use Rattle.net_serve.specs.Passes.{IsSeated};
ghost use Rattle.net_serve.specs.Seats.{calls_if, budget_if, HasSeat};

use crate::{Pass, ServedManagers, ServedPost};
use disk_model::Disk;
use kme_serve::Worker;
use qkd_base::NodeNo;
use shared_objects::Post as Kept;
use source_devices::Entropy;

/// Makes a worker for each door. Worker k gets a seat with `calls` calls at the turnstile of node k modulo the number of nodes. The seat is
/// split off the kept seat of that node.
pub(crate) fn seat_workers<K: Disk + Drop, E: Entropy + Drop, D: Drop>(
    managers: &ServedManagers<K, E>,
    kept: &mut [Kept<ServedPost<K, E>>],
    doors: Vec<D>,
    workers: &mut Vec<Worker<Pass<ServedPost<K, E>>, D>>,
    calls: u64,
)
    requires some { 0 < length managers.now.turnstiles.now }
    requires few { length managers.now.turnstiles.now ≤ 16 }
    requires charters { (v : ℕ) (t : _) → slice_get managers.now.turnstiles.now v ≡ Some t → ((opening t).site.value ≡ managers.now.site.now) × ((opening t).node ≡ v) }
    requires none { workers.old.items ≡ [] }
    requires room { vec_len doors ≤ vec_capacity workers.old }
    requires fits { AllZip Belongs managers.now.turnstiles.now kept.old }
    requires budget { (v : ℕ) → v < length kept.old → length doors.items * calls ≤ budget_at v kept.old }
    ensures kept { AllZip Belongs managers.now.turnstiles.now kept.new }
    ensures own { (v : ℕ) → calls_at v kept.new ≡ calls_at v kept.old }
    ensures shares { (v : ℕ) → budget_at v kept.new + sum_by (λ w. budget_if v w.pass.node w.pass.seat) workers.new.items ≡ budget_at v kept.old }
    ensures doors { map (λ w. w.door) workers.new.items ≡ doors.items }
    ensures seats { (k : ℕ) (w : _) → slice_get workers.new.items k ≡ Some w →
        HasSeat (λ o. (o.site.value, o.node)) managers.now.site.now managers.now.turnstiles.now calls (k % length managers.now.turnstiles.now) w.pass.node w.pass.seat }
{
    for door in doors {
        let place = workers.len() % managers.turnstiles.len();
        let post = &mut kept[place];
        let seat = managers.turnstiles[place].split(&mut post.seat, calls);
        let node = NodeNo::new(place as u8).unwrap();
        workers.push_reserved(Worker {
            pass: Pass { node, seat },
            door,
            outcome: Ok(()),
        });
    }
}

/// Joins the workers' seats into the kept ones, worker by worker, and returns the doors in their order.
pub(crate) fn join_workers<K: Disk + Drop, E: Entropy + Drop, D: Drop>(
    managers: &ServedManagers<K, E>,
    kept: &mut [Kept<ServedPost<K, E>>],
    workers: Vec<Worker<Pass<ServedPost<K, E>>, D>>,
    doors: &mut Vec<D>,
)
    requires none { doors.old.items ≡ [] }
    requires room { vec_len workers ≤ vec_capacity doors.old }
    requires kept { AllZip Belongs managers.now.turnstiles.now kept.old }
    requires seats { AllByRecursion (λ w. IsSeated (λ o. (o.site.value, o.node)) managers.now.site.now managers.now.turnstiles.now w.pass.node w.pass.seat) workers.items }
    ensures kept { AllZip Belongs managers.now.turnstiles.now kept.new }
    ensures own { (v : ℕ) → calls_at v kept.new ≡ calls_at v kept.old ++ flat_map (λ w. calls_if v w.pass.node w.pass.seat) workers.items }
    ensures budget { (v : ℕ) → budget_at v kept.new ≡ budget_at v kept.old + sum_by (λ w. budget_if v w.pass.node w.pass.seat) workers.items }
    ensures doors { doors.new.items ≡ map (λ w. w.door) workers.items }
{
    for worker in workers {
        let Worker {
            pass: Pass { node, seat },
            door,
            outcome: _,
        } = worker;
        let place = usize::from(node.get());
        let post = &mut kept[place];
        managers.turnstiles[place].join(&mut post.seat, seat);
        doors.push_reserved(door);
    }
}
