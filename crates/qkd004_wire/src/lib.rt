//! Reads stream calls and writes their answers as single lines of text (ETSI GS QKD 004 V2.1.1, clause 6).
#![tactic(auto)]

mod answer;
mod bad_call;
mod call;
mod field;

pub use answer::{answer_line, refusal_of};
pub use bad_call::BadCall;
pub use call::{event_of, read_call};
