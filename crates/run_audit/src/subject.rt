// Subjects: the keys and chunks whose bytes a report tells.
use qkd_base::KeyName;

/// A key, or the chunk of a stream at an index. Each has bytes of its own.
#[derive(Clone, Copy, Debug, PartialEq, Eq)]
pub enum Subject {
    Key(KeyName),
    Chunk(KeyName, u32),
}
