//! Laws of what an action leaves alone, of the blocks that a link is given, and of a tick step by step.
#![tactic(auto)]

mod block_laws;
mod locality_laws;
mod tick_laws;

pub use block_laws::law_block_is_run;
pub use locality_laws::{
    law_allocate_and_transmit_leave_views, law_frames_octets_stay_in_a_step, law_other_lanes_stay,
    law_other_links_stay, law_other_managers_stay,
};
pub use tick_laws::{law_order_goes, law_plan_sends, law_repeat_goes, law_sent_completes};
