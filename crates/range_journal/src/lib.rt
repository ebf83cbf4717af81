//! An append-only journal of batches on a disk: a crash at any moment leaves each batch whole or not at all.
//!
//! Each batch stands behind its gate, one octet. An open gate, 01, says that a whole batch follows. A closed gate, 00, ends the
//! journal. A crash in an append leaves the batches that were there, or these and the new one. Only before the new batch may
//! a gate be neither open nor closed.
#![tactic(auto)]

mod batch;
mod batch_reader;
mod durable;
mod gate_close;
mod header;
mod journal;
mod journal_open;
mod laws;
mod refusal;

pub use durable::write_synced;
pub use header::header_fault;
pub use journal::{Journal, MOST_OCTETS, Refused};
pub use journal_open::{looks_blank, make_new, open, open_at, open_sized, settle};
pub use laws::{
    a_doubt_stays_or_is_made, a_new_disk_is_blank_or_has_its_head, batches_behind_a_header_stand,
    octets_stand_for_one_list,
};
pub use refusal::JournalRefusal;
