//! Audits one text that has a scenario and, behind its end, the report of a run, and states the verdict as one line.
#![tactic(auto)]

mod input;
mod laws;
mod lines;
mod refusal;
mod report;
mod verdict_line;

pub use input::{Input, read_input};
pub use laws::law_read_or_refused;
pub use refusal::AuditRefusal;
pub use verdict_line::{audit_text, verdict_text};
