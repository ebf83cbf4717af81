// Whether a manager is up or down, with its journal or disk.
use disk_model::Disk;
use journal_snapshot::Snapshots;

/// Whether a manager is up or down.
#[derive(Drop)]
pub enum Standing<K: Disk> {
    /// Up, with a journal that has all durable changes.
    Up(Snapshots<K>),
    /// Down, with its disk.
    Down(K),
    /// Neither: an event is being handled.
    Between,
}
