// A lane that has too few bytes for its next order.
use qkd_base::{Items, Lane, Memory, Replica};

/// The first order of a lane for which the bytes received don't suffice: `used + need > received`.
#[derive(Clone, Copy, Debug, PartialEq, Eq)]
pub struct ShortOf {
    pub lane: Lane,
    pub used: u64,
    pub need: u64,
    pub received: u64,
}

/// A list of lanes that have too few bytes.
pub type Shorts = Items<ShortOf>;

impl Replica for ShortOf {
    fn copy(&self) -> Result<Self, Memory> {
        Ok(*self)
    }
}
