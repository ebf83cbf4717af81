//! Questions about a text that standard input gives, and their answers, which are texts: the words that need no network.
#![tactic(auto)]

mod answer;
mod exchange;
mod question;
mod whole_source;

pub use answer::{Answer, AnswerRefusal, Verdict};
pub use exchange::{Ended, answer_to};
pub use question::Question;
pub use whole_source::{ReadRefusal, read_all};
