//! A disk as a journal sees it: reads, writes, syncs, and what a crash may leave. Forms in memory with faults, and
//! kept in a file.
#![tactic(auto)]

mod allowance;
mod arm;
mod disk;
mod failed;
mod held_disk;
mod history;
mod kept_disk;
mod laws;
mod mem_disk;
mod octet_file;
mod passage;
mod system_file;

pub use allowance::Allowance;
pub use arm::{Arm, Armings, Image};
pub use disk::Disk;
pub use failed::DiskFailed;
pub use kept_disk::KeptDisk;
pub use laws::what_a_cut_leaves;
pub use mem_disk::MemDisk;
pub use octet_file::OctetFile;
pub use system_file::SystemFile;
