// The work of the serving workers, as a block of jobs.
ghost use Rattle.std.specs.Prelude.{◌≡◌, ◌%◌, ◌<◌, ◌≤◌};
ghost use Rattle.kme_serve.specs.Workers.{MayServe, HasServed, IsOneJob, door_told};

use crate::{Connections, Managers, Worker, serve_door};
use block_run::Work;
use edge_io::Listener;
use qkd_base::NodeNo;
use qkd014_api::Api;
use std::alloc::Global;
use std::marker::PhantomData;
use std::sync::Wait;

/// What all workers share: the managers, the API, and how many connections each worker serves at its own listener.
#[derive(Drop)]
pub struct Serving<'a, M, D> {
    pub alloc: Global,
    pub managers: &'a M,
    pub api: &'a Api,
    /// How many nodes there are, at most 16.
    pub nodes: u8,
    pub connections: Connections,
    pub doors: PhantomData<D>,
    ghost some: { 0 < nodes },
    ghost few: { nodes ≤ 16 },
}

// The node that a worker serves: the worker's number modulo the number of nodes.
fn node_of(worker: u32, nodes: u8) -> NodeNo
    requires some { 0 < nodes }
    requires few { nodes ≤ 16 }
    ensures { result ≡ worker % nodes }
{
    NodeNo::new((worker % u32::from(nodes)) as u8).unwrap()
}

impl<M: Managers + Sync, D: Listener + Send + Sync> Work for Serving<'_, M, D>
where
    M::Pass: Send,
    D::In: Send,
    D::Out: Send,
{
    type Pass = Worker<M::Pass, D>;

    type Answer = ();

    ghost fits = { λ it worker jobs. IsOneJob (λ job.
        MayServe (M.fits it.managers.now) (M.budget it.managers.now (job % it.nodes)) (M.takes it.managers.now (job % it.nodes)) it.api.now.entitlements (job % it.nodes) it.connections
        worker.pass (door_told D.port D.accepted D.finished D.waiting D.done worker.door)) jobs };

    ghost gives = { λ it job worker answer next.
        HasServed (M.fits it.managers.now) (M.answers it.managers.now (job % it.nodes)) (M.seen it.managers.now (job % it.nodes)) it.api.now.nodes it.api.now.entitlements (job % it.nodes) it.connections
        (door_told D.port D.accepted D.finished D.waiting D.done worker.door) (door_told D.port D.accepted D.finished D.waiting D.done next.door)
        (D.faults worker.door) (D.faults next.door) worker.pass next.pass next.outcome };

    // A worker's job has the worker's number: it serves the connections of the worker's own listener.
    fn run<R: Wait>(&self, rt: &R, worker: &mut Worker<M::Pass, D>, job: u32) {
        let node = node_of(job, self.nodes);
        worker.outcome = serve_door(
            rt,
            self.alloc,
            self.managers,
            self.api,
            &mut worker.pass,
            node,
            &mut worker.door,
            self.connections,
        );
    }
}
