//! TCP ports of the loopback address, or sockets in a folder: their listeners and connections, and a log of their requests.
#![tactic(auto)]

mod answer;
mod bell;
mod crew;
mod deadline;
mod door;
mod entrance;
mod hall;
mod log;
mod patience;
mod peer;
mod peer_reader;
mod peer_writer;
mod ports;
mod request_ends;
mod service;
mod socket;
mod stream;
mod talk;
mod waiting_room;

pub use crew::Crew;
pub use door::TcpDoor;
pub use log::Log;
pub use patience::Patience;
pub use peer_reader::PeerReader;
pub use peer_writer::PeerWriter;
pub use ports::TcpPorts;
pub use service::{Place, Service};
