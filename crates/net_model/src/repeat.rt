// What a plan orders to be sent again.
use qkd_base::{FrameOctets, Items, KeyName, Lane, Memory, Replica};

/// A repeat: a frame that is to be put on its lane's wire once more, with the same octets.
#[derive(Debug, Drop)]
pub struct Repeat {
    pub lane: Lane,
    pub offset: u64,
    /// The frame's number on the wire when it was last put there. `None` if the wire never took it.
    pub number: Option<u64>,
    pub name: KeyName,
    /// For an acknowledgement, the offset at which its frame was received.
    pub ack_of: Option<u64>,
    /// The number of the frame's octets, 25 to 585.
    pub length: u16,
    pub frame: FrameOctets,
}

/// A list of repeats.
pub type Repeats = Items<Repeat>;

impl Replica for Repeat {
    fn copy(&self) -> Result<Self, Memory> {
        Ok(Repeat {
            lane: self.lane,
            offset: self.offset,
            number: self.number,
            name: self.name,
            ack_of: self.ack_of,
            length: self.length,
            frame: self.frame,
        })
    }
}
