// The answers to calls on streams.
use qkd_base::{KeyName, Octets};

/// A chunk of a stream: its index, counted from 0, and its bytes.
#[derive(Debug, Drop)]
pub struct Chunk {
    pub index: u32,
    pub bytes: Octets,
}

/// The answer to a call on streams, with its status.
#[derive(Debug, Drop)]
pub enum StreamAnswer {
    /// OPEN_CONNECT: the stream that was opened or joined.
    OpenConnect { status: u8, stream: Option<KeyName> },
    /// GET_KEY: the chunk that is handed out.
    GetKey { status: u8, chunk: Option<Chunk> },
    /// CLOSE: the status alone.
    Close { status: u8 },
}
