// The results of all workers are gathered.
ghost use Rattle.std.specs.Prelude.{◌≡◌, ◌≤◌, ◌+◌, ◌++◌, [], true, length, map, vec_len, vec_capacity};
ghost use Rattle.std.specs.List.{flat_map};
ghost use Rattle.kme_shared.specs.Gathering.{AreGathered};

use crate::Room;
use crate::order::{by_lane, by_node};
use par_frames::Worked;
use par_lanes::Emitted;
use par_managers::{Keep, Replied};
use run_ops::Turned;

// Appends replies to those that are there.
fn move_replies(from: Vec<Replied>, into: &mut Vec<Replied>)
    requires { vec_len into.old + vec_len from ≤ vec_capacity into.old }
    ensures items { into.new.items ≡ into.old.items ++ from.items }
    ensures capacity { vec_capacity into.new ≡ vec_capacity into.old }
{
    for replied in from {
        into.push_reserved(replied);
    }
}

// Appends frames to those that are there. `false` says that memory ran out.
fn move_frames(from: Vec<Emitted>, into: &mut Vec<Emitted>) -> bool
    ensures { result ≡ true → into.new.items ≡ into.old.items ++ from.items }
{
    for frame in from {
        if into.push(frame).is_err() {
            return false;
        }
    }
    true
}

// Appends a worker's replies and frames to the gathered ones. `false` says that some frames are missing.
fn take_in(keep: Keep<'_>, room: &mut Room) -> bool
    requires { length room.old.replied.items + length keep.replies.items ≤ vec_capacity room.old.replied }
    ensures replied { room.new.replied.items ≡ room.old.replied.items ++ keep.entry.replies.items }
    ensures capacity { vec_capacity room.new.replied ≡ vec_capacity room.old.replied }
    ensures turns { room.new.turns ≡ room.old.turns }
    ensures whole { result ≡ true → (keep.entry.log.is_whole ≡ true) × (room.new.frames.items ≡ room.old.frames.items ++ keep.entry.log.frames.items) }
{
    let Keep { replies, log, .. } = keep;
    move_replies(replies, &mut room.replied);
    move_frames(log.frames, &mut room.frames) && log.is_whole
}

// The replies without their nodes.
fn turns_of(replied: Vec<Replied>, mut turns: Vec<Turned>) -> Vec<Turned>
    requires none { turns.items ≡ [] }
    requires room { vec_len replied ≤ vec_capacity turns }
    ensures { result.items ≡ map (λ r. r.turned) replied.items }
{
    for one in replied {
        turns.push_reserved(one.turned);
    }
    turns
}

/// Gathers the replies, node by node in the order in which they were given, and the frames, lane by lane in the order in which they were
/// put.
pub fn gather(keeps: Vec<Keep<'_>>, mut room: Room) -> Worked
    requires none { (room.replied.items ≡ []) × (room.turns.items ≡ []) × (room.frames.items ≡ []) }
    requires replied { length (flat_map (λ keep. keep.replies.items) keeps.items) ≤ vec_capacity room.replied }
    requires turns { length (flat_map (λ keep. keep.replies.items) keeps.items) ≤ vec_capacity room.turns }
    ensures { AreGathered keeps.entry.items result }
{
    let mut is_whole = true;
    for keep in keeps {
        is_whole = take_in(keep, &mut room) && is_whole;
    }
    let Room {
        replied,
        turns,
        frames,
    } = room;
    Worked {
        turns: turns_of(by_node(replied), turns),
        frames: by_lane(frames),
        is_whole,
    }
}
