// The result of a scenario that was run out of a bench.
use disk_model::Disk;
use run_lines::Stop;
use source_devices::{Device, Entropy, Wire};
use world_state::State;

/// The result of a scenario that was run out of a bench.
#[derive(Drop)]
pub struct Left<K: Disk + Drop, Q: Device + Drop, E: Entropy + Drop, X: Wire + Drop> {
    /// The state after the run. Its parts are not yet back on the bench.
    pub state: State<K, Q, E, X>,
    /// How the run ended.
    pub ended: Result<(), Stop>,
}
