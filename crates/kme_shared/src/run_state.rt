// The state of a run, which does what a scenario's lines ask for.
ghost use Rattle.std.specs.Prelude.{◌≡◌};
ghost use Rattle.declared_site.specs.SiteOf.{IsDeclared};
ghost use Rattle.world_state.specs.Armed.{most_armed};
ghost use Rattle.world_state.specs.Sized.{IsSized};
ghost use Rattle.kme_shared.specs.RunningLaws.{comes_to_rest as rests_here, none_tallied as no_tally, more_tallied as added};
ghost use Rattle.world_state.specs.Rests.{Rests};
ghost use Rattle.world_state.specs.Stands.{Stands};
ghost use Rattle.world_state.specs.Tallied.{Tallied};
ghost use Rattle.world_state.specs.Outside.{outside};

use declared_site::Site;
use disk_model::{Arm, Disk};
use net_model::{Counts4, Event, Reply};
use qkd_base::{Items, Lane, LinkNo, Memory, NodeNo};
use run_ops::{Acts, BlockTake, Delivery, Tampered};
use run_types::{Item, StartResult};
use source_devices::{Device, Entropy, Wire};
use world_state::State;

/// The managers, lanes and devices of a run over a declared site.
#[derive(Drop)]
pub struct Running<K: Disk + Drop, Q: Device + Drop, E: Entropy + Drop, X: Wire + Drop> {
    pub state: State<K, Q, E, X>,
    ghost declared: { IsDeclared state.site },
    ghost sized: { IsSized state },
}

impl<K: Disk + Drop, Q: Device + Drop, E: Entropy + Drop, X: Wire + Drop> Running<K, Q, E, X> {
    /// A run over this state.
    pub fn new(state: State<K, Q, E, X>) -> Self
        requires declared { IsDeclared state.site }
        requires sized { IsSized state }
        ensures { result.state ≡ state }
    {
        Running { state }
    }

    /// The state that the run left.
    pub fn into_state(self) -> State<K, Q, E, X>
        ensures state { result ≡ self.state }
        ensures sized { IsSized result }
    {
        let Running { state } = self;
        state
    }
}

impl<K: Disk + Drop, Q: Device + Drop, E: Entropy + Drop, X: Wire + Drop> Acts
    for Running<K, Q, E, X> {
    ghost site = { λ r. r.state.site };

    ghost stands = { λ r. Stands (outside K.Disk Q.Device E.Entropy X.Wire) r.state };

    ghost rests = { λ r. Rests (outside K.Disk Q.Device E.Entropy X.Wire) r.state };

    ghost tallied = { λ a b. Tallied (outside K.Disk Q.Device E.Entropy X.Wire) a.state b.state };

    ghost armed = { λ r. most_armed K.Disk r.state.posts.items };

    fn declared(&self) -> &Site {
        &self.state.site
    }

    fn is_up(&self, node: NodeNo) -> bool {
        world_state::is_up(&self.state, node)
    }

    fn on_wire(&self, lane: Lane) -> u64 {
        world_state::on_wire(&self.state, lane)
    }

    fn counts(&self, lane: Lane) -> Counts4 {
        world_state::counts(&self.state, lane)
    }

    fn ask(&mut self, node: NodeNo, event: &Event) -> Reply {
        world_state::ask(&mut self.state, node, event)
    }

    fn take_block(&mut self, node: NodeNo, link: LinkNo) -> Result<BlockTake, Memory> {
        world_state::take_block(&mut self.state, node, link)
    }

    fn tick(&mut self, node: NodeNo, quiet: bool) -> Result<Items<Item>, Memory> {
        let alloc = *self.state.posts.allocator();
        world_state::tick(alloc, &mut self.state, node, quiet)
    }

    fn pass(&mut self, lane: Lane, number: u64) -> Result<Delivery, Memory> {
        world_state::pass(&mut self.state, &lane, number)
    }

    fn flip(&mut self, lane: Lane, number: u64, bit: u32) -> Result<Tampered, Memory> {
        world_state::flip(&mut self.state, &lane, number, bit)
    }

    fn forge(&mut self, lane: Lane, octets: &[u8]) -> Result<Tampered, Memory> {
        world_state::forge(&mut self.state, &lane, octets)
    }

    fn crash(&mut self, node: NodeNo) -> bool {
        world_state::crash(&mut self.state, node)
    }

    fn start(&mut self, node: NodeNo) -> Result<StartResult, Memory> {
        let alloc = *self.state.posts.allocator();
        world_state::start(alloc, &mut self.state, node)
    }

    fn arm(&mut self, node: NodeNo, arm: Arm) {
        world_state::arm(&mut self.state, node, arm)
    }

    fn set_link(&mut self, link: LinkNo, up: bool) {
        world_state::set_link(&mut self.state, link, up)
    }

    ghost is_sited = { λ s net w stands. stands.sited };

    ghost comes_to_rest = { λ s net w stands. rests_here _ net w s.state stands };

    ghost none_tallied = { λ s net w stands. no_tally _ net w s.state stands };

    ghost more_tallied = { λ a b c sited xs ys first then. added _ sited a.state b.state c.state xs ys first then };
}
