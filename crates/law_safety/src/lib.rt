//! Laws of what the invariant means for keys, bytes, entropies, acknowledgements and handings.
#![tactic(auto)]

mod bound_laws;
mod conserved_laws;
mod entropy_laws;
mod handing_laws;
mod reply_laws;

pub use bound_laws::{
    law_acknowledgements_are_few, law_managers_acknowledge_an_offset_once,
    law_plans_acknowledge_what_is_pending, law_what_is_heard_again_adds_nothing,
};
pub use conserved_laws::{
    law_acknowledged_is_known, law_bytes_are_drawn, law_delivered_as_opened, law_doubt_is_either,
    law_handed_once, law_handed_to_entitled, law_known_along_the_route, law_next_name_is_new,
    law_no_byte_masks_two, law_one_byte_list, law_own_count_adds_up, law_received_is_counted,
    law_start_gives_up, law_stored_is_known, law_wires_hold_frames,
};
pub use entropy_laws::law_octets_go_once;
pub use handing_laws::law_deliveries_true;
pub use reply_laws::{
    law_dec_succeeds, law_enc_group_succeeds, law_enc_succeeds, law_handings_fit, law_replies_true,
};
