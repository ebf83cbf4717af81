/// The kinds of payload, in the order of their kind octets, which begin with 1.
#[derive(Clone, Copy, Debug, PartialEq, Eq)]
pub enum PayloadKind {
    Key,
    Stored,
    Ack,
    Open,
    Joined,
    Chunk,
    Part,
}
