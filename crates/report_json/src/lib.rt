//! Writes each item of a report as a JSON object on a line of its own.
#![tactic(auto)]

mod frame_items;
mod item;
mod key_items;
mod laws;
mod object;
mod place;
mod refusal;
mod report_objects;
mod text;
mod words;

pub use laws::law_objects_tell;
pub use place::Place;
pub use report_objects::json_text;
pub use text::{json_line, json_of};
