// Shows that there is what the laws' premises ask for: a network with real frames, runs of it, and a block.
ghost use Rattle.net_model.specs.Premises.{IsNetwork};
ghost use Rattle.model_examples.specs.Witness.{here, Runs, Relays, Hands, Doubts, Blocks, BlocksOfLines};

use hop_frames::frames_of_a_network;

/// There is a network as the laws ask for, with a run, keys that are handed out, a batch in doubt, and a block, which is also one of lines
/// that a worker does. No law is vacuous for lack of one of these.
pub fn law_premises_are_met()
    ensures network { IsNetwork here }
    ensures runs { Runs }
    ensures relays { Relays }
    ensures hands { Hands }
    ensures doubts { Doubts }
    ensures blocks { Blocks }
    ensures blocks_of_lines { BlocksOfLines }
{
    frames_of_a_network();
}
