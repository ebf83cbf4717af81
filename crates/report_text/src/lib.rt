//! Writes the lines of a report as text: the printer of the report format.
#![tactic(auto)]

mod answer;
mod frame_items;
mod item;
mod key_items;
mod line;
mod refusal;
mod words;

pub use line::{handed_text, item_text, line_text, served_text};
