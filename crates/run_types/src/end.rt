/// An end of a link: the one at the node of the lower number, or of the higher.
#[derive(Clone, Copy, Debug, PartialEq, Eq)]
pub enum End {
    Low,
    High,
}

/// The ends of a link at which a line has blocks taken.
#[derive(Clone, Copy, Debug, PartialEq, Eq)]
pub enum Ends {
    Low,
    High,
    Both,
}
