ghost use Rattle.std.specs.Prelude.{◌≡◌, List, Ok};
ghost use Rattle.net_model.specs.declared.placing.Placing.{Placing};
ghost use Rattle.net_model.specs.View.{View};
ghost use Rattle.net_model.specs.Decision.{Decision};
ghost use Rattle.kme_base.specs.Random.{with_random, decision_over};
ghost use Rattle.kme_base.specs.Steps.{IsStep};

use crate::Change;
use crate::random::write_random;
use net_model::{Records, Reply};
use std::alloc::Global;

/// The effect of one event: its durable records, its reply, and its change of the volatile state.
#[derive(Debug, Drop)]
pub struct Step {
    pub batch: Records,
    pub reply: Reply,
    pub change: Change,
}

impl Step {
    /// Replaces the octets over which the step was made by drawn ones, in order. Each key, each chunk and each group key gets
    /// the next drawn octets of its length; all parts of one group key get the same ones. Where the drawn octets run out, the
    /// old ones stay. It allocates no memory.
    pub fn put_random(&mut self, alloc: Global, random: &[u8])
        ensures batch { self.new ≡ record self.old { batch = with_random random.now self.old.batch } }

        // If the step was the manager's decision over the old octets, it now is that decision over the drawn ones.
        ensures decided { (v : View) (placings : List Placing) (decision : Decision) → IsStep v placings decision (Ok self.old) → IsStep v placings (decision_over random.now decision) (Ok self.new) }
    {
        write_random(alloc, &mut self.batch, random);
    }
}
