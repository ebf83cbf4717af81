use qkd_base::{KeyName, Lane};

/// How an event changes the window and the other state that a manager keeps in memory only, beside its durable records.
#[derive(Clone, Copy, Debug, PartialEq, Eq)]
pub enum Change {
    /// No change.
    Same,
    /// A frame that carries a fact was received on a lane at an offset: its acknowledgement is due.
    Received {
        lane: Lane,
        offset: u64,
        name: KeyName,
    },
    /// The acknowledgement of a fact was received on a lane: the window drops the fact's entries on the reverse lane.
    Acknowledged {
        lane: Lane,
        name: KeyName,
    },
    /// The frames that the reply plans are being sent: entries grow a tick older, repeated entries begin anew, and orders await
    /// their placings.
    Planned,
    /// The event's placings (which frame stands on a wire under which number) are noted.
    Noted,
}
