//! Reads a single line of a report back as the item that it was written from: the grammar of the report format.
#![tactic(auto)]

pub mod fields;
mod frame_rows;
mod key_rows;
mod line;
mod refusal;
mod refusals;
mod rows;
mod words;

pub use line::told_in;
pub use refusal::LineRefusal;
