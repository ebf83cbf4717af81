//! Traits for a manager's surroundings: devices of links, entropies of nodes, wires of lanes; in memory, generated, and over a file.
#![tactic(auto)]

mod device;
mod entropy;
mod generated;
mod key_stream;
mod mem_device;
mod mem_entropy;
mod mem_wire;
mod parts;
mod random_file;
mod shortage;
mod wire;

pub use device::Device;
pub use entropy::Entropy;
pub use generated::{GeneratedDevice, GeneratedEntropy};
pub use key_stream::KeyStream;
pub use mem_device::MemDevice;
pub use mem_entropy::MemEntropy;
pub use mem_wire::MemWire;
pub use random_file::RandomFile;
pub use shortage::Shortage;
pub use wire::{Wire, WireFailed};
