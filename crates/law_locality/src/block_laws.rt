// The law that makes blocks of lines sound: what managers do side by side has the same effect as one sequential run.
ghost use Rattle.net_model.specs.World.{Network, World};
ghost use Rattle.net_model.specs.Premises.{IsNetwork};
ghost use Rattle.net_model.specs.Invariant.{Conserved};
ghost use Rattle.net_model.specs.BlockOrder.{Parts, BlockIsRun};

/// In a block, each manager's history is made on its own, from the world at the block's start. Put in sequence, the
/// parts are one run from that world: first the histories, in order of node; then each order gets its bytes, lane by
/// lane; then each frame is put or refused, lane by lane; then all managers are told of their frames. So what workers
/// do at the same time needs no other order.
pub fn law_block_is_run()
    ensures { (net : Network) (w : World) (parts : Parts) → IsNetwork net → Conserved net w → BlockIsRun net w parts }
{}
