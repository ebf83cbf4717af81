// The parts of a report's rows.

/// A part of a row: the words that may stand at its place. Byte, Short, Number and Long are numbers of at most 8, 16, 32
/// and 64 bits.
#[derive(Clone, Copy)]
pub enum Part {
    Link,
    Byte,
    Short,
    Number,
    Long,
    Way,
    End,
    Up,
    Kind,
    /// A state of a key in which the key has bytes.
    State,
    Cause,
    Node,
    Name,
    Tag,
    /// Octets in hexadecimal.
    Octets,
    /// Octets in hexadecimal, or a hyphen for none.
    Bytes,
    Absent,
    New,
    Again,
    Received,
    Unused,
    Spent,
    Burnt,
}

/// How many leading octets of a text fit, and whether the whole of what was to be fitted is there.
#[derive(Clone, Copy)]
pub struct Reach {
    pub octets: usize,
    pub whole: bool,
}
