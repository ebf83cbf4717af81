//! The lines of a scenario and the items of a report, as types.
#![tactic(auto)]

mod command;
mod end;
mod entry;
mod frame_result;
mod image;
mod item;
mod line;
mod payload_kind;
mod refusal;
mod scenario;
mod start_result;
mod stream_answer;
mod stream_call;
mod unsent_cause;

pub use command::Command;
pub use end::{End, Ends};
pub use entry::{Entries, Entry};
pub use frame_result::FrameResult;
pub use image::Image;
pub use item::{Item, NumberedItem, NumberedItems};
pub use line::{Line, Lines};
pub use payload_kind::PayloadKind;
pub use refusal::Refusal;
pub use scenario::Scenario;
pub use start_result::StartResult;
pub use stream_answer::{Chunk, StreamAnswer};
pub use stream_call::StreamCall;
pub use unsent_cause::UnsentCause;
