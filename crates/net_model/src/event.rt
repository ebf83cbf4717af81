// The events that a manager is asked to handle.
use crate::Placings;
use qkd_base::{KeyName, Lane, LinkNo, Names, Octets, SaeNo, Saes};

/// An event that a key manager (KME) is asked to handle. Sizes are in bits, from 64 to 4,096 in steps of 8. Counts and
/// numbers of keys are from 1 to 128.
#[derive(Debug, Drop)]
pub enum Event {
    /// The next block of a link, 1,024 octets, came to this end.
    Block {
        link: LinkNo,
        number: u32,
        bytes: Octets,
    },
    /// Make keys for a pool.
    Fill {
        master: SaeNo,
        slave: SaeNo,
        bits: u16,
        count: u16,
    },
    /// Make chunks of a stream.
    Feed {
        stream: KeyName,
        count: u16,
    },
    /// Say which frames are to be sent now.
    Plan,
    /// A frame came on a lane.
    Heard {
        lane: Lane,
        bytes: Octets,
    },
    /// Hand ready keys to their master (ETSI GS QKD 014, Get key).
    Enc {
        master: SaeNo,
        slave: SaeNo,
        number: u16,
        bits: u16,
    },
    /// Hand named keys to their slave (ETSI GS QKD 014, Get key with key IDs).
    Dec {
        slave: SaeNo,
        master: SaeNo,
        names: Names,
    },
    /// Count the ready keys of the default size (ETSI GS QKD 014, Get status).
    Status {
        master: SaeNo,
        slave: SaeNo,
    },
    /// Open a stream at its source (ETSI GS QKD 004, OPEN_CONNECT).
    Open {
        source: SaeNo,
        peer: SaeNo,
        bits: u16,
    },
    /// Join a stream at its peer (ETSI GS QKD 004, OPEN_CONNECT).
    Join {
        caller: SaeNo,
        other: SaeNo,
        stream: KeyName,
        bits: u16,
    },
    /// Hand the chunk at an index (ETSI GS QKD 004, GET_KEY).
    Get {
        caller: SaeNo,
        stream: KeyName,
        index: u32,
    },
    /// Close one end of a stream (ETSI GS QKD 004, CLOSE).
    Close {
        caller: SaeNo,
        stream: KeyName,
    },
    /// Show an operator what this node holds of a key.
    Show {
        name: KeyName,
    },
    /// Count the bytes of a lane that leaves this node.
    Ledger {
        lane: Lane,
    },
    /// Make group keys for 2 to 5 slaves, which are in order of number.
    FillGroup {
        master: SaeNo,
        slaves: Saes,
        bits: u16,
        count: u16,
    },
    /// Hand ready group keys to their master (ETSI GS QKD 014, Get key with additional slaves).
    EncGroup {
        master: SaeNo,
        slaves: Saes,
        number: u16,
        bits: u16,
    },
    /// Note what became of the frames of the plans so far.
    Note {
        placings: Placings,
    },
}
