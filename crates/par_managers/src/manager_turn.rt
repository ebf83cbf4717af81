// Taking the turn of a manager.
ghost use Rattle.std.specs.Prelude.{ℕ};
ghost use Rattle.net_model.specs.World.{Network, World};
ghost use Rattle.par_managers.specs.Taking.{MayTurnAt, HappensAt};

use disk_model::Disk;
use net_model::{Event, Reply};
use qkd_base::Octets;
use run_ops::Job;
use source_devices::Entropy;
use world_state::{Post, ask_if_up};

/// A node's manager does the job of its turn. `octets` are those of the frame that comes, if the job passes one. Bit l of
/// `up` says that link l is up.
pub fn take_turn<K: Disk + Drop, E: Entropy>(
    post: &mut Post<K, E>,
    job: &Job,
    octets: Option<Octets>,
    up: u32,
) -> Reply
    requires may { ∥ ((net : Network) × (w : World) × (v : ℕ) × (place : ℕ) × MayTurnAt K.Disk E.Entropy net w v place post.old job.now octets up) ∥₁ }
    ensures { (net : Network) (w : World) (v place : ℕ) → MayTurnAt K.Disk E.Entropy net w v place post.old job.now octets up
        → HappensAt K.Disk E.Entropy net w v post.old post.new job.now result }
{
    match job {
        Job::Nothing => Reply::Down,
        Job::Ask { event, .. } => ask_if_up(post, event, up),
        Job::Pass { lane, .. } => match octets {
            None => Reply::Down,
            Some(bytes) => ask_if_up(post, &Event::Heard { lane: *lane, bytes }, up),
        },
    }
}
