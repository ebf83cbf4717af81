// Reporting the bytes that are about to be sealed.

use edge_io::Gate;

/// Is told of frames that are about to be sealed. It need not be shared by threads, so a job may have one whose gate only its
/// own thread knows.
pub trait Seals {
    /// Bytes of a lane of this link, from this offset on, are claimed and about to be sealed.
    fn seal(&self, link: u8, offset: u64);
}

/// Tells the worker's gate.
#[derive(Drop)]
pub struct AtGate<'g, G> {
    pub gate: &'g G,
}

impl<G: Gate> Seals for AtGate<'_, G> {
    fn seal(&self, link: u8, offset: u64) {
        self.gate.seal(link, offset);
    }
}
