/// The state of a key or chunk at a node, as an operator is shown it.
#[derive(Clone, Copy, Debug, PartialEq, Eq)]
pub enum Held {
    /// The node knows no key or chunk of that name.
    Absent,
    /// The node is an end of it, and the application there has got it.
    Given,
    /// The node made it, and its target has confirmed it.
    Ready,
    /// The node made it.
    Made,
    /// The node is its target.
    Kept,
    /// The node is a relay between its ends.
    Relayed,
}
