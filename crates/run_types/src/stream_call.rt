// Calls on streams.
use qkd_base::{KeyName, SaeNo};

/// A call on streams (ETSI GS QKD 004 V2.1.1, clause 6). Sizes are in bits. A size that isn't from 64 to 4,096 in steps
/// of 8 is answered by a status.
#[derive(Clone, Copy, Debug, PartialEq, Eq)]
pub enum StreamCall {
    /// OPEN_CONNECT without a stream: the source opens a new stream to the peer.
    Open {
        source: SaeNo,
        peer: SaeNo,
        bits: u16,
    },
    /// OPEN_CONNECT with a stream: the caller joins a stream that the source opened.
    Join {
        caller: SaeNo,
        source: SaeNo,
        stream: KeyName,
        bits: u16,
    },
    /// GET_KEY: the caller asks for the chunk at an index of a stream, counted from 0.
    Get {
        caller: SaeNo,
        stream: KeyName,
        index: u32,
    },
    /// CLOSE: the caller closes its end of a stream.
    Close {
        caller: SaeNo,
        stream: KeyName,
    },
}
