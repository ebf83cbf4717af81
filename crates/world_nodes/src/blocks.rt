// A node takes blocks from its links' devices.
ghost use Rattle.std.specs.Prelude.{◌≡◌, ◌≤◌, ℕ, Some};
ghost use Rattle.net_model.specs.declared.reply.Reply.TheVariants.{Took};
ghost use Rattle.net_model.specs.OctetSequence.{block_at};
ghost use Rattle.net_model.specs.Handle.{blocks_at};
ghost use Rattle.net_model.specs.World.{Network, World};
ghost use Rattle.net_model.specs.Action.{Replies, DeviceFailed};
ghost use Rattle.qkd_base.specs.Faults.{Rose};
ghost use Rattle.run_ops.specs.Reported.{taken};
ghost use Rattle.world_nodes.specs.Blocks.{MayTake, IsNext, MayPut, IsTaken};

use crate::event_handler::handle;
use disk_model::Disk;
use kme_store::Post;
use net_model::{Event, Reply};
use qkd_base::{LinkNo, Octets};
use run_ops::BlockTake;
use source_devices::{Device, Entropy, Shortage};
use std::alloc::Global;

// The number of the link's block that a node takes next, if its manager is up.
fn next_number<K: Disk + Drop, E: Entropy>(post: &Post<K, E>, link: LinkNo) -> Option<u32>
    ensures { (net : Network) (w : World) (v up : ℕ) → MayTake K.Disk E.Entropy net w v post.now link up → IsNext net w v link result }
{
    match post {
        Post::On(manager) => {
            if manager.is_up() {
                Some(manager.blocks(link))
            } else {
                None
            }
        }
        Post::Off(_, _) => None,
    }
}

// Gives the next block to a manager that is up.
fn put_block<K: Disk + Drop, E: Entropy>(
    alloc: Global,
    post: &mut Post<K, E>,
    link: LinkNo,
    number: u32,
    block: &[u8],
    up: u32,
) -> Reply
    requires asked { (net : Network) × (w : World) × (v : ℕ) × MayPut K.Disk E.Entropy net w v post.old link number block.now up }
    ensures { (net : Network) (w : World) (v : ℕ) → MayPut K.Disk E.Entropy net w v post.old link number block.now up
        → IsTaken K.Disk E.Entropy net w v link post.old post.new (Replies result) }
{
    match Octets::from_slice(alloc, block) {
        Err(_) => Reply::Memory,
        Ok(bytes) => handle(
            post,
            &Event::Block {
                link,
                number,
                bytes,
            },
            up,
        ),
    }
}

/// A node takes the next block from a link's device. If it took the block, the block's octets are in the buffer. Three
/// refusals come first, in this order: the manager is down; the link's list is full; the device has no further block, or
/// fails.
pub fn take_block<K: Disk + Drop, E: Entropy, Q: Device>(
    alloc: Global,
    post: &mut Post<K, E>,
    device: &mut Q,
    link: LinkNo,
    up: u32,
    into: &mut [u8; 1024],
) -> BlockTake
    requires asked { (net : Network) × (w : World) × (v : ℕ) × (Q.told device.old ≡ Some (net.device link)) × MayTake K.Disk E.Entropy net w v post.old link up }
    ensures taken { (net : Network) (w : World) (v : ℕ) → Q.told device.old ≡ Some (net.device link) → MayTake K.Disk E.Entropy net w v post.old link up
        → IsTaken K.Disk E.Entropy net w v link post.old post.new (taken result) }
    ensures block { (net : Network) (w : World) (v number : ℕ) → Q.told device.old ≡ Some (net.device link) → MayTake K.Disk E.Entropy net w v post.old link up
        → taken result ≡ Replies (Took number) → into.new ≡ block_at (net.device link) (blocks_at net w v link) }
    ensures cause { taken result ≡ DeviceFailed → Rose (Q.faults device.old) (Q.faults device.new) }
    ensures told { Q.told device.new ≡ Q.told device.old }
    ensures later { Q.faults device.old ≤ Q.faults device.new }
    ensures calm { (taken result ≡ DeviceFailed → ⊥) → Q.faults device.new ≡ Q.faults device.old }
{
    let number = match next_number(post, link) {
        None => return BlockTake::Replied(Reply::Down),
        Some(number) => number,
    };
    if number == 1024 {
        return BlockTake::Replied(Reply::LinkFull);
    }
    match device.block(number, into) {
        Err(Shortage::End) => BlockTake::NoBlock,
        Err(Shortage::Failed) => BlockTake::DeviceFailed,
        Ok(()) => BlockTake::Replied(put_block(alloc, post, link, number, &into[..], up)),
    }
}
