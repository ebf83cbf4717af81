//! Laws of the model's parts: records, a node's view, which bytes are needed, and lanes with their wires.
#![tactic(auto)]

mod lane_laws;
mod need_laws;
mod record_laws;
mod view_laws;

pub use lane_laws::{
    law_allocate_keeps, law_frames_stay, law_lanes_share_no_byte, law_no_byte_twice,
    law_no_octet_twice, law_octets_stay, law_transmit_keeps, law_wires_stay,
};
pub use need_laws::{
    law_masked_twice, law_need_is_blind, law_needed_stays, law_untouched_stays_masked,
    law_view_grows,
};
pub use record_laws::{
    law_blocks_few, law_doubts_made, law_doubts_stay, law_records_add, law_records_keep,
};
pub use view_laws::{law_chunks_counted, law_known_is_seen, law_routes_differ, law_view_is_known};
