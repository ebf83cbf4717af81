// The records of a journal.
use crate::Fact;
use qkd_base::{Items, KeyName, Lane, LinkNo, Memory, Octets, Replica, SaeNo};

/// A record: one durable change of one node.
#[derive(Debug, Drop)]
pub enum Record {
    /// The next block of a link, 1,024 octets, came to this end. Blocks are numbered from 0.
    Block {
        link: LinkNo,
        number: u32,
        bytes: Octets,
    },
    /// The lane bytes below this end may be claimed.
    Lease {
        lane: Lane,
        end: u64,
    },
    /// The node knows this fact.
    Learned {
        fact: Fact,
    },
    /// The next node of the fact's route has acknowledged it.
    Acked {
        name: KeyName,
    },
    /// An application has got a key or chunk.
    Handed {
        name: KeyName,
        sae: SaeNo,
    },
    /// An application has closed its end of a stream.
    Closed {
        stream: KeyName,
        sae: SaeNo,
    },
    /// The node knows this fact and no longer needs its bytes, which are zeros here.
    Bare {
        fact: Fact,
    },
}

/// A list of records.
pub type Records = Items<Record>;

impl Replica for Record {
    fn copy(&self) -> Result<Self, Memory> {
        match self {
            Record::Block {
                link,
                number,
                bytes,
            } => Ok(Record::Block {
                link: *link,
                number: *number,
                bytes: bytes.copy()?,
            }),
            Record::Lease { lane, end } => Ok(Record::Lease {
                lane: *lane,
                end: *end,
            }),
            Record::Learned { fact } => Ok(Record::Learned { fact: fact.copy()? }),
            Record::Acked { name } => Ok(Record::Acked { name: *name }),
            Record::Handed { name, sae } => Ok(Record::Handed {
                name: *name,
                sae: *sae,
            }),
            Record::Closed { stream, sae } => Ok(Record::Closed {
                stream: *stream,
                sae: *sae,
            }),
            Record::Bare { fact } => Ok(Record::Bare { fact: fact.copy()? }),
        }
    }
}
