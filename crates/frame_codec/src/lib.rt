//! Encodes and decodes the payloads of frames: facts and acknowledgements. Each payload has exactly one spelling in octets.
#![tactic(auto)]

pub mod fault;
pub mod fields;
mod laws;
mod payload_parser;
pub mod payload_printer;
mod payload_refusal;

pub use laws::{read_is_spelled, spelled_is_read};
pub use payload_parser::read;
pub use payload_printer::spell;
pub use payload_refusal::PayloadRefusal;
