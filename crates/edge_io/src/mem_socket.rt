// A port in memory that can be opened.
ghost use Rattle.std.specs.Prelude.{◌≡◌};

use crate::MemQueue;
use std::collections::VecDeque;
use std::marker::Model;

/// A port that can be opened. It has a queue for its listener, and one for each twin of that listener.
#[derive(Debug, Drop)]
pub struct MemSocket {
    pub(crate) port: u16,
    pub(crate) first: MemQueue,
    pub(crate) twins: VecDeque<MemQueue>,
}

impl Model for MemSocket {
    ghost use Rattle.edge_io.specs.Doors.{SocketForm};

    ghost Value = { SocketForm };

    ghost view = { λ s. record { port = s.port; first = s.first; twins = s.twins.items } };
}

impl MemSocket {
    /// The port of this number. The first queue is the listener's. The others are those of its twins, in order.
    pub fn new(port: u16, first: MemQueue, twins: Vec<MemQueue>) -> Self
        ensures { result ≡ record { port = port; first = first; twins = twins.items } }
    {
        MemSocket {
            port,
            first,
            twins: VecDeque::from(twins),
        }
    }

    // The number of the port.
    pub(crate) fn port(&self) -> u16
        ensures { result ≡ self.now.port }
    {
        self.port
    }
}
