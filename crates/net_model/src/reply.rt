// The answers of a manager.
use crate::{Counts4, Held, Orders, Repeats, Shorts};
use qkd_base::{KeyName, Keys, Octets};

/// The answer to one event of a key manager.
#[derive(Debug, Drop)]
pub enum Reply {
    /// The block of this number was taken.
    Took {
        number: u32,
    },
    /// `count` keys or chunks were made. `first` is the name of the first one.
    MadeKeys {
        count: u16,
        first: KeyName,
    },
    /// The frames that are to be sent now.
    Planned {
        orders: Orders,
        repeats: Repeats,
        shorts: Shorts,
    },
    /// A payload came that told something new (`fresh`) or nothing new. The kind is its kind octet.
    HeardFact {
        fresh: bool,
        kind: u8,
        name: KeyName,
    },
    /// Keys with their bytes, which are handed out.
    Handed {
        keys: Keys,
    },
    /// How many keys of the default size are ready.
    ReadyCount {
        count: u32,
    },
    /// The answer to a call on streams: its status, the stream that it names, and the chunk that it hands out.
    Stream {
        status: u8,
        stream: Option<KeyName>,
        index: u32,
        bytes: Octets,
    },
    /// What an operator is shown. There are no bytes if this node no longer needs them.
    Shown {
        held: Held,
        bytes: Octets,
    },
    /// The bytes of a lane, as this manager counts them.
    Counted {
        counts: Counts4,
    },
    /// The placings were noted.
    Noted,
    /// The manager is not up.
    Down,
    /// The disk failed in this event. The manager is down. The next start shows whether the event's changes are
    /// durable.
    Stopped,
    /// Memory ran out, and nothing changed.
    Memory,
    /// The end of the link already holds 1,024 blocks.
    LinkFull,
    /// The pair is not allowed, or the caller is not at home here.
    NotAllowed,
    /// There is no route of at most 8 links that are up.
    NoRoute,
    /// More than 4,096 keys would be waiting for their master.
    PoolFull,
    /// This node is not the source of an open stream of this name.
    UnknownStream,
    /// The journal would pass its limit. It has `length` octets, and the event needs `need` more.
    JournalFull {
        length: u64,
        need: u64,
    },
    /// The entropy gave no octets.
    NoRandom,
    /// The frame's header or payload breaks the grammar at this octet.
    BadFrame {
        place: u32,
    },
    /// The frame's link and way octets are those of another lane.
    WrongLane {
        link: u8,
        way: u8,
    },
    /// Only `have` bytes of the lane were received, too few for the frame.
    NoBits {
        have: u64,
    },
    /// The tag that came with the frame, and the one that it should have.
    BadTag {
        given: u64,
        computed: u64,
    },
    /// Only `count` keys are ready, fewer than were asked for.
    Few {
        count: u32,
    },
    /// The name at this place is not that of a key of the pair that this node knows.
    Unknown {
        place: u16,
    },
    /// The name at this place is at an earlier place, too.
    Repeated {
        place: u16,
    },
    /// The key at this place was already handed to the slave.
    AlreadyHanded {
        place: u16,
    },
}
