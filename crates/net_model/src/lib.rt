//! The abstract network: the types that its parts exchange, and the definitions that their contracts cite.
#![tactic(auto)]

mod counts;
mod event;
mod fact;
mod held;
mod order;
mod payload;
mod placing;
mod record;
mod repeat;
mod reply;
mod short_of;

pub use counts::Counts4;
pub use event::Event;
pub use fact::Fact;
pub use held::Held;
pub use order::{Order, Orders};
pub use payload::{Payload, fact_size, spelled_len, well_formed};
pub use placing::{Placing, Placings};
pub use record::{Record, Records};
pub use repeat::{Repeat, Repeats};
pub use reply::Reply;
pub use short_of::{ShortOf, Shorts};
