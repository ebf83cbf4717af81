//! Laws of scenarios as texts: what is spelled is read back, and which texts are scenarios.
#![tactic(auto)]

mod form_laws;
mod spelling_laws;

pub use form_laws::{law_command_is_spelled, law_one_meaning_is_one_form, law_text_is_spelled};
pub use spelling_laws::{law_command_is_read, law_lines_are_read};
