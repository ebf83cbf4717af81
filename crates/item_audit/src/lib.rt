//! Audits one item of a report by what its line asks for.
//!
//! No other item is looked at: which rules the item keeps by its line alone, what it says of its manager, and which names it
//! tells of as given.
#![tactic(auto)]

mod asked;
mod entitled;
mod fill_rules;
mod frame_heads;
mod given;
mod key_rules;
mod lane_ends;
mod lengths;
mod line_rules;
mod parts;
mod pass_rules;
mod responses;
mod said;
mod stocks;
mod stream_rules;

pub use asked::{Asked, asked_at};
pub use given::{Given, bounded, given_if};
pub use lane_ends::{lane_from, lane_place, receiver, reversed, sender};
pub use lengths::fits_length;
pub use parts::is_among;
pub use said::{Said, said_in};
pub use stocks::{Change, Pool, change_if, ready_if};
