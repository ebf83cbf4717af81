// The lines of a scenario.
use crate::command::Command;
use qkd_base::Items;

/// A line that is not a declaration. Its number is counted from 1 over all lines of the scenario.
#[derive(Debug, Drop)]
pub struct Line {
    pub number: u32,
    pub command: Command,
}

/// A list of lines.
pub type Lines = Items<Line>;
