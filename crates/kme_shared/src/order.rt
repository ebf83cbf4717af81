// Gathered replies and frames are sorted.
ghost use Rattle.std.specs.Prelude.{◌≡◌, vec_len};
ghost use Rattle.std.specs.List.Sorted.{IsPermutation};
ghost use Rattle.qkd_base.specs.Lane.{lane_place};
ghost use Rattle.par_frames.specs.Sorting.{IsSortedByBoth};

use par_lanes::Emitted;
use par_managers::Replied;
use world_state::lane_place;

// The replies in order of node, and those of a node in the order of its manager's turns.
pub(crate) fn by_node(mut replies: Vec<Replied>) -> Vec<Replied>
    ensures just { IsPermutation replies.items result.items }
    ensures order { IsSortedByBoth (λ r. r.node) (λ r. r.at) result.items }
    ensures len { vec_len result ≡ vec_len replies }
{
    replies.sort_unstable_by_key(|r: &Replied| (r.node, r.at));
    replies
}

// The frames in order of lane, and those of a lane in the order of the lane's turns.
pub(crate) fn by_lane(mut frames: Vec<Emitted>) -> Vec<Emitted>
    ensures just { IsPermutation frames.items result.items }
    ensures order { IsSortedByBoth (λ e. lane_place e.lane) (λ e. e.at) result.items }
{
    frames.sort_unstable_by_key(|e: &Emitted| (lane_place(e.lane), e.at));
    frames
}
