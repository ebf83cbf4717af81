// Doors that are served.
use kme_serve::Connections;

/// Doors that are served, one by each worker.
pub(crate) struct ServedDoors<D> {
    pub doors: Vec<D>,
    /// How many connections are served at each door.
    pub connections: Connections,
}
