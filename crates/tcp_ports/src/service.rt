use crate::{Log, Patience};

// So many connections that no listener comes to their end.
const ENDLESS: u64 = 1 << 48;

/// Where the ports of a program are.
#[derive(Clone, Copy)]
pub enum Place<'a> {
    /// TCP ports of the loopback address 127.0.0.1.
    Loopback,
    /// Sockets in the folder of this path: `node-00.sock` for node 0, and so on.
    Folder(&'a str),
}

/// How the ports of a program are served.
#[derive(Clone, Copy)]
pub struct Service<'a> {
    pub place: Place<'a>,
    /// The port of node 0. Each further node has the next one.
    pub first: u16,
    pub patience: Patience,
    /// A port closes once each of its listeners has finished so many connections. With 2^48, which none comes to, connections take
    /// turns: each time that one is taken up counts as a connection.
    pub connections: u64,
    /// What tells of each request, if anything does.
    pub log: Option<&'a Log>,
}

impl Service<'_> {
    /// The number of the node that has a port.
    pub(crate) fn node(&self, port: u16) -> u16 {
        port.saturating_sub(self.first)
    }

    /// Whether connections take turns at workers.
    pub(crate) fn takes_turns(&self) -> bool {
        self.connections >= ENDLESS
    }
}
