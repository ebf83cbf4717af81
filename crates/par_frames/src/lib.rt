//! What became of a block's frames: on each lane as actions of the model, recorded by their senders, and reported.
#![tactic(auto)]

mod block;
mod frame_placing;
mod frame_records;
mod frames;
mod lane_block_laws;
mod lane_work_laws;
mod log;
mod node_notes;
mod sent;
mod worked;

pub use block::note_block;
pub use frames::note_frames;
pub use lane_block_laws::{
    law_block_ends, law_block_is_done, law_blocks_are_tallied, law_lanes_stand,
};
pub use lane_work_laws::{
    law_calls_are_deeds, law_deeds_are_of_workers, law_desks_are_called_on, law_desks_worked,
    law_frames_are_of_their_line, law_kept_are_in_order, law_kept_are_on_their_lanes,
    law_lane_is_left, law_lanes_are_left, law_own_turns_are_wanted, law_part_has_just,
    law_part_is_in_order, law_permutation_has_just, law_sorted_frames_are_told,
    law_sorted_frames_stand_lane_by_lane, law_sorted_is_in_order,
};
pub use log::{Log, Refused};
pub use node_notes::note_all;
pub use worked::Worked;
