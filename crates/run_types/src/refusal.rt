/// A refusal, as a report tells it. Places, counts and indexes are counted from 0.
#[derive(Clone, Copy, Debug, PartialEq, Eq)]
pub enum Refusal {
    /// The manager is not up.
    Down,
    /// The disk failed during the event.
    Stopped,
    /// Memory ran out.
    Memory,
    /// The end of the link already holds 1,024 blocks.
    LinkFull,
    /// The device has no further block.
    NoBlock,
    /// The device failed.
    DeviceFault,
    /// The pair is not allowed, or the caller is not at home at the node.
    NotAllowed,
    /// There is no route of at most 8 links that are up.
    NoRoute,
    /// More than 4,096 keys would be waiting for their master.
    PoolFull,
    /// The node is not the source of an open stream of this name.
    UnknownStream,
    /// The journal has `length` octets, and with the `need` more of the event it would pass its limit.
    JournalFull { length: u64, need: u64 },
    /// The entropy gave no octets.
    NoRandom,
    /// The wire has `count` frames, and none of the number that was asked for.
    NoFrame { count: u64 },
    /// The frame has `bits` bits, and none of the number that was asked for.
    NoBit { bits: u32 },
    /// The frame breaks the grammar of frames at this octet.
    BadFrame { place: u32 },
    /// The link and way octets of the frame are those of another lane.
    WrongLane { link: u8, way: u8 },
    /// The receiver has only `have` bytes of the lane, too few for the frame.
    NoBits { have: u64 },
    /// The tag that came with the frame, and the one that it should have.
    BadTag { given: u64, computed: u64 },
    /// Only `count` keys are ready, fewer than were asked for.
    Few { count: u32 },
    /// The name at this place is not that of a key of this pair that the node knows.
    Unknown { place: u16 },
    /// The name at this place is at an earlier place, too.
    Repeated { place: u16 },
    /// The key at this place was already handed to the slave.
    Handed { place: u16 },
}
