//! Parses the lines of a report, and finds the first octet of a refused line that fits no line of a report.
#![tactic(auto)]

mod fits;
mod line;
mod part;
mod refusal;
mod refusal_rows;
mod rows;
mod runs;
mod walk;

pub use line::read_line;
pub use refusal::ReportRefusal;
