// Checkpoints.
ghost use Rattle.std.specs.Prelude.{◌≡◌, ◌+◌, ℕ, length, sum_by, IfOk};
ghost use Rattle.net_model.specs.Journal.{checkpoint_batches, checkpoint_need};
ghost use Rattle.kme_node.specs.Holdings.{view};
ghost use Rattle.kme_journal.specs.Batches.{AreSpelled};
ghost use Rattle.kme_journal.specs.Formed.{IsFormed};

use crate::batches::Batches;
use crate::facts::list_facts;
use crate::marks::{list_acked, list_closed, list_handed};
use crate::ports::{list_all_blocks, list_leases};
use kme_node::Node;
use qkd_base::{Memory, Octets};
use std::alloc::Global;

/// The batches of a manager's checkpoint, as bodies of format version 2. They have the blocks in order of link and
/// number; the leases that end after the hash key; the facts in the order in which they were learned, without bytes
/// that are no longer needed; and acknowledgements, handed-out keys and closed ends, each in order.
pub fn checkpoint_batches(alloc: Global, node: &Node) -> Result<Vec<Octets>, Memory>
    requires { IsFormed (view node.now) }
    ensures spelled { IfOk result (λ bodies. AreSpelled (checkpoint_batches (view node.now)) bodies.items) }

    // With a gate and a length for each body, and a gate at the end, they take as many octets as the model says.
    ensures need { IfOk result (λ bodies. 1 + sum_by (λ b. 5 + length b) bodies.items ≡ checkpoint_need (view node.now)) }
{
    let mut batches = Batches::new(alloc);
    let ends = node.ports().as_slice();
    list_all_blocks(&mut batches, ends)?;
    list_leases(&mut batches, ends)?;
    let kept = node.kept();
    list_facts(&mut batches, kept)?;
    let streams = kept.streams();
    list_acked(&mut batches, streams.ends().known().acked())?;
    list_handed(&mut batches, streams.ends().handed())?;
    list_closed(&mut batches, streams.closed())?;
    batches.finish()
}
