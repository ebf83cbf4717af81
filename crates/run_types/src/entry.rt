// Entries: single lines and blocks of lines.
use crate::line::{Line, Lines};
use qkd_base::Items;

/// A single line, or a block: the lines between `together` and `apart`, which several workers do side by side.
#[derive(Debug, Drop)]
pub enum Entry {
    Line(Line),
    Block(Lines),
}

/// A list of entries.
pub type Entries = Items<Entry>;
