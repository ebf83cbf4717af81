//! How many hash keys give the hashes of two texts a difference, and the texts that ask for it and tell it.
#![tactic(auto)]

mod count;
mod key_lines;
mod keys;
mod laws;
mod lines;
mod refusal;
mod roots;
mod short_text;
mod text_laws;
mod text_refusal;
mod words;

pub use count::{bound_of, bound_text};
pub use key_lines::{KEY_LIMIT, read_keys};
pub use keys::Keys64;
pub use laws::{law_few_keys, law_frame_blocks};
pub use refusal::RootRefusal;
pub use roots::{RootCount, roots_among};
pub use short_text::ShortText;
pub use text_laws::{law_first_bad_line, law_keys_meant, law_long_texts};
pub use text_refusal::KeysRefusal;
pub use words::number;
