//! Audits a report by six rules, from the scenario and the report's own items alone.
//!
//! The verdict is yes, or names an item and a rule: the first item that breaks a rule together with the items before it,
//! and the least rule that this item breaks.
//!
//! The rules, by number:
//!
//! 1. The line under whose number an item stands gives such items, and each link that the item names is declared.
//! 2. The frames of a lane's wire are numbered from 0, in order.
//! 3. A frame covers the bytes of its payload and 8 for its tag, from its offset on, and its offset is at least 8. Two frames
//!    of a lane with the same offset have the same length, and no two kinds and no two names are told of them. Two with
//!    different offsets have no byte in common.
//! 4. All bytes told of a key are equal, also those that a node shows. All bytes told of a chunk of a stream are equal. No
//!    application gets a key or a chunk twice. A key has one master, and goes only to that master and to applications for
//!    which the master may have keys.
//! 5. A frame that was taken had been sent. A node takes a name at most once as a fact, and at most once as an
//!    acknowledgement.
//! 6. The received bytes of a lane are its unused, spent and burnt ones. They are the lane's share of the blocks that its
//!    sender took, unless the sender stopped at a block. If there are any, the spent bytes are 8 for the hash key and those of
//!    each frame's place. If the lane's wire refused a frame, more bytes may be spent.
#![tactic(auto)]

mod contents;
mod frames;
mod judgement;
mod kinds;
mod laws;
mod line_kind;
mod record;
mod rows;
mod subject;
mod sums;
mod table;
mod takings;
mod tellings;
mod verdict;

pub use judgement::audit;
pub use laws::{
    law_frames_are_disjoint, law_frames_carry_one, law_keys_are_handed_once, law_ledgers_are_true,
    law_names_are_taken_once,
};
pub use rows::is_on_link;
pub use verdict::Verdict;
