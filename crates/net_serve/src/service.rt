// What is to be served, by how many workers.
use kme_serve::Connections;

/// What is to be served: each of the workers serves this many connections.
#[derive(Clone, Copy, Debug, PartialEq, Eq)]
pub struct Service {
    /// How many workers there are: at least 1, at most 32.
    pub workers: u32,
    /// How many connections each worker serves.
    pub connections: Connections,
    /// The port of node 0, at most 65,520. Node v has the port that is v higher.
    pub port: u16,
}
