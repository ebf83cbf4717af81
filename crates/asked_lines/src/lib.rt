//! Keeps the lines of a report, and writes those of them that a person asked for.
#![tactic(auto)]

mod asked;
mod asked_report;
mod kept_lines;

pub use asked::is_asked;
pub use asked_report::tell_asked;
pub use kept_lines::KeptLines;
