// Facts, which the nodes of the network know.
use qkd_base::{KeyName, Memory, Octets, Replica, Route, SaeNo};

/// A fact is something that a node makes once and that is relayed along a route, hop by hop (SECOQC trusted repeaters).
/// Its name is unique in the network. Its bytes, if it has any, are 8 to 512 octets.
#[derive(Debug, Drop)]
pub enum Fact {
    /// A key of a pool, for the master at the route's first node and the slave at its last one (ETSI GS QKD 014).
    Key {
        name: KeyName,
        master: SaeNo,
        slave: SaeNo,
        route: Route,
        bytes: Octets,
    },
    /// The key of a stream at an index (ETSI GS QKD 004).
    Chunk {
        name: KeyName,
        stream: KeyName,
        index: u32,
        route: Route,
        bytes: Octets,
    },
    /// A note of the target that a key, chunk or part has arrived there. It is relayed back to the origin.
    Stored {
        note: KeyName,
        about: KeyName,
        route: Route,
    },
    /// A stream of chunks of `size` octets each (ETSI GS QKD 004, OPEN_CONNECT by the source).
    Open {
        stream: KeyName,
        source: SaeNo,
        peer: SaeNo,
        length: u16,
        route: Route,
    },
    /// A note of the peer that it takes part in a stream. It is relayed back to the source's home (ETSI GS QKD 004,
    /// OPEN_CONNECT by the peer).
    Joined {
        note: KeyName,
        about: KeyName,
        route: Route,
    },
    /// The copy of a group key for one of its slaves (ETSI GS QKD 014, additional_slave_SAE_IDs).
    Part {
        name: KeyName,
        key: KeyName,
        master: SaeNo,
        slave: SaeNo,
        route: Route,
        bytes: Octets,
    },
}

impl Replica for Fact {
    fn copy(&self) -> Result<Self, Memory> {
        match self {
            Fact::Key {
                name,
                master,
                slave,
                route,
                bytes,
            } => Ok(Fact::Key {
                name: *name,
                master: *master,
                slave: *slave,
                route: *route,
                bytes: bytes.copy()?,
            }),
            Fact::Chunk {
                name,
                stream,
                index,
                route,
                bytes,
            } => Ok(Fact::Chunk {
                name: *name,
                stream: *stream,
                index: *index,
                route: *route,
                bytes: bytes.copy()?,
            }),
            Fact::Stored { note, about, route } => Ok(Fact::Stored {
                note: *note,
                about: *about,
                route: *route,
            }),
            Fact::Open {
                stream,
                source,
                peer,
                length,
                route,
            } => Ok(Fact::Open {
                stream: *stream,
                source: *source,
                peer: *peer,
                length: *length,
                route: *route,
            }),
            Fact::Joined { note, about, route } => Ok(Fact::Joined {
                note: *note,
                about: *about,
                route: *route,
            }),
            Fact::Part {
                name,
                key,
                master,
                slave,
                route,
                bytes,
            } => Ok(Fact::Part {
                name: *name,
                key: *key,
                master: *master,
                slave: *slave,
                route: *route,
                bytes: bytes.copy()?,
            }),
        }
    }
}
