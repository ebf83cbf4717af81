// What became of a frame that a plan wanted to be put on a wire.
use qkd_base::{FrameOctets, Items, KeyName, Lane, Memory, Replica};

/// A placing: what became of one order or repeat. It says where its frame is on the lane, and whether the wire took it.
#[derive(Debug, Drop)]
pub struct Placing {
    pub lane: Lane,
    pub offset: u64,
    pub name: KeyName,
    /// For an acknowledgement, the offset at which its frame was received.
    pub ack_of: Option<u64>,
    /// False for a repeat.
    pub fresh: bool,
    /// The frame's number on the wire. `None` if the wire refused the frame.
    pub number: Option<u64>,
    /// The number of the frame's octets, 25 to 585.
    pub length: u16,
    pub frame: FrameOctets,
}

/// A list of placings.
pub type Placings = Items<Placing>;

impl Replica for Placing {
    fn copy(&self) -> Result<Self, Memory> {
        Ok(Placing {
            lane: self.lane,
            offset: self.offset,
            name: self.name,
            ack_of: self.ack_of,
            fresh: self.fresh,
            number: self.number,
            length: self.length,
            frame: self.frame,
        })
    }
}
