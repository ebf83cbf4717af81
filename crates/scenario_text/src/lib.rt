//! The reader of scenarios: a text becomes a scenario, or its first line that is refused is named.
#![tactic(auto)]

mod declaration_lines;
mod fields;
mod group_lines;
mod key_lines;
mod link_lines;
mod node_lines;
mod reading;
mod refusal;
mod scenario;
mod stream_lines;
pub mod words;

pub use fields::{ends, image, link, name, node, octets, sae, size, stream, way};
pub use reading::Reading;
pub use refusal::{LineRefusal, ScenarioRefusal};
pub use scenario::{LINE_LIMIT, TEXT_LIMIT, read_scenario, split_line, without_return};
pub use stream_lines::call;
