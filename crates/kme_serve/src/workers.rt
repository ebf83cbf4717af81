// The call that runs all workers at the same time.
ghost use Rattle.std.specs.Prelude.{◌≡◌, ◌%◌, ◌*◌, ◌<◌, ◌≤◌, ℕ, true, false, Some, Err, length, slice_get, is_ok, IfOk};
ghost use Rattle.std.specs.List.{list_all};
ghost use Rattle.kme_serve.specs.Workers.{MayServe, HasServed, door_told};
ghost use Rattle.kme_serve.specs.declared.refusal.ServeRefusal.TheVariants as refusals;

use crate::worker_jobs::Serving;
use crate::{Connections, Managers, ServeRefusal, Worker};
use block_run::{BlockEnd, run_block};
use edge_io::{Listener, OpenGate};
use qkd014_api::Api;
use std::alloc::Global;
use std::marker::PhantomData;
use std::sync::Wait;
use std::thread::Threads;

/// Runs all workers, each on a thread of its own where a thread can be started; otherwise another worker's thread does its
/// work. Worker w accepts `connections` connections at its own listener and serves them to the manager of node w modulo
/// `nodes`. All memory for the threads is taken before the first connection: where that fails, the workers come back unchanged.
/// Returns how many connections were served in all, or `Listen` if a listener failed; then each worker's `outcome` tells
/// whether its own did.
pub fn serve<R: Threads + Wait + Sync, M: Managers + Sync, D: Listener + Send + Sync>(
    rt: &R,
    alloc: Global,
    managers: &M,
    api: &Api,
    workers: Vec<Worker<M::Pass, D>>,
    nodes: u8,
    connections: Connections,
) -> (Result<u64, ServeRefusal>, Vec<Worker<M::Pass, D>>)
where
    M::Pass: Send,
    D::In: Send,
    D::Out: Send,
    requires some { 0 < length workers.items }
    requires few { length workers.items ≤ 32 }
    requires some_node { 0 < nodes }
    requires few_nodes { nodes ≤ 16 }
    requires may { (w : ℕ) (v : _) → slice_get workers.items w ≡ Some v →
        MayServe (M.fits managers.now) (M.budget managers.now (w % nodes)) (M.takes managers.now (w % nodes)) api.now.entitlements (w % nodes) connections
        v.pass (door_told D.port D.accepted D.finished D.waiting D.done v.door) }
    ensures length { length result.1.items ≡ length workers.items }
    ensures memory { result.0 ≡ Err refusals.Memory → result.1 ≡ workers }
    ensures served { ¬ (result.0 ≡ Err refusals.Memory) → (w : ℕ) (v t : _) → slice_get workers.items w ≡ Some v → slice_get result.1.items w ≡ Some t →
        HasServed (M.fits managers.now) (M.answers managers.now (w % nodes)) (M.seen managers.now (w % nodes)) api.now.nodes api.now.entitlements (w % nodes) connections
        (door_told D.port D.accepted D.finished D.waiting D.done v.door) (door_told D.port D.accepted D.finished D.waiting D.done t.door)
        (D.faults v.door) (D.faults t.door) v.pass t.pass t.outcome }
    ensures total { IfOk result.0 (λ total. total ≡ length workers.items * connections) }
    ensures all { IfOk result.0 (λ total. list_all (λ t. is_ok t.outcome) result.1.items ≡ true) }
    ensures listen { result.0 ≡ Err refusals.Listen → list_all (λ t. is_ok t.outcome) result.1.items ≡ false }
{
    let count = workers.len() as u32;
    let serving = Serving {
        alloc,
        managers,
        api,
        nodes,
        connections,
        doors: PhantomData,
    };
    match run_block(rt, alloc, &serving, workers, count, &OpenGate) {
        Ok(BlockEnd { passes, answers: _ }) => {
            if all_came(&passes) {
                (Ok(u64::from(count) * connections.count()), passes)
            } else {
                (Err(ServeRefusal::Listen), passes)
            }
        }
        Err((_, workers)) => (Err(ServeRefusal::Memory), workers),
    }
}

// Whether no worker's listener failed.
fn all_came<P, D>(workers: &[Worker<P, D>]) -> bool
    ensures { result ≡ list_all (λ w. is_ok w.outcome) workers.now }
{
    workers.iter().all(|worker| worker.outcome.is_ok())
}
