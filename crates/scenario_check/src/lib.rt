//! Says why lines of a scenario are refused: the first rule that each one breaks.
#![tactic(auto)]

mod check;
mod field;
mod form;
mod laws;
mod reason;
mod refusal;
mod text;

pub use check::check_text;
pub use field::Field;
pub use laws::law_first_refused;
pub use reason::Reason;
pub use refusal::{Checked, Counts, Refusal};
pub use text::checked_text;
