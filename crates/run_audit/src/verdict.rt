// The verdict of an audit.

/// Whether a report is sound: no item breaks a rule.
#[derive(Clone, Copy, Debug, PartialEq, Eq)]
pub enum Verdict {
    /// No item breaks a rule. Frames with the same lane and offset count once. A delivery is a key or a chunk that went to an
    /// application.
    Yes {
        frames: u32,
        deliveries: u32,
        ledgers: u32,
    },
    /// The item on this line is the first that breaks a rule together with the items before it. The rule, from 1, is the
    /// least that it breaks.
    No {
        line: u32,
        rule: u8,
    },
}
