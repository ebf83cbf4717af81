//! Sources, sinks, listeners and ports as traits, with forms in memory for tests, and adapters over the standard
//! library. Contracts see what a source has left, what a sink took, which connections wait, which were finished, and
//! how often each failed.
#![tactic(auto)]

mod ended;
mod failed;
mod gate;
mod listener;
mod mem_connection;
mod mem_listener;
mod mem_ports;
mod mem_queue;
mod mem_sink;
mod mem_socket;
mod mem_source;
mod ports;
mod read_source;
mod sink;
mod source;
mod write_sink;

pub use ended::Ended;
pub use failed::Failed;
pub use gate::{Gate, OpenGate};
pub use listener::Listener;
pub use mem_connection::{MemConnection, MemFinished};
pub use mem_listener::MemListener;
pub use mem_ports::MemPorts;
pub use mem_queue::MemQueue;
pub use mem_sink::MemSink;
pub use mem_socket::MemSocket;
pub use mem_source::MemSource;
pub use ports::Ports;
pub use read_source::ReadSource;
pub use sink::Sink;
pub use source::Source;
pub use write_sink::WriteSink;
