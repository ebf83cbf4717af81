/// A gate can hold the workers of a block, so that a test sees several of them at work at once. Its calls have no
/// effect on any result.
pub trait Gate: Sync {
    /// A worker is about to do its job of this number, counted from 0, or has done its last one.
    fn pass(&self, worker: u32, turn: u32);

    /// A worker has claimed bytes of a lane of this link, from this offset on, and is about to seal a frame with them.
    fn seal(&self, link: u8, offset: u64);
}

/// A gate that holds nobody.
#[derive(Clone, Copy, Debug)]
pub struct OpenGate;

impl Gate for OpenGate {
    fn pass(&self, _worker: u32, _turn: u32) {}

    fn seal(&self, _link: u8, _offset: u64) {}
}
