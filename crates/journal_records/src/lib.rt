//! Encoding and decoding of the records in a key manager's journal, in both versions of the format.
#![tactic(auto)]

mod batch_size;
mod body_parser;
mod body_printer;
mod cursor;
mod facts;
mod laws;
mod record_refusal;
mod record_writer;
mod version;

pub use body_parser::{read_batch, read_batch_2};
pub use body_printer::{respell, spell_batch, spell_batch_2};
pub use laws::{read_is_spelled, spelled_is_read};
pub use record_refusal::RecordRefusal;
pub use version::Version;
