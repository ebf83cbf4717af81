// Questions about streams.
ghost use Rattle.std.specs.Prelude.{◌≡◌};
ghost use Rattle.std.specs.Option.{option_copied};
ghost use Rattle.net_model.specs.Table.{fact_at};
ghost use Rattle.net_model.specs.Site.{Site};
ghost use Rattle.net_model.specs.View.{View};
ghost use Rattle.net_model.specs.Streams.{has_end, has_joined, chunk_at};
ghost use Rattle.stream_core.specs.Kept.{Sees, opened_of};

use crate::Streams;
use net_model::Fact;
use qkd_base::{KeyName, NodeNo, Route, SaeNo};

/// A stream as its source opened it, with chunks of `octets` octets each (ETSI GS QKD 004, OPEN_CONNECT).
#[derive(Clone, Copy, Debug)]
pub struct Opened {
    pub stream: KeyName,
    pub source: SaeNo,
    pub peer: SaeNo,
    pub octets: u16,
    pub route: Route,
}

impl Streams {
    /// The stream of a name, whether or not this node is one of its ends.
    pub fn opened(&self, stream: KeyName) -> Option<Opened>
        ensures { result ≡ opened_of (fact_at self.now.ends.known.facts stream) }
    {
        match self.ends().known().fact(stream) {
            Some(
                Fact::Open {
                    stream,
                    source,
                    peer,
                    length,
                    route,
                },
            ) => Some(Opened {
                stream: *stream,
                source: *source,
                peer: *peer,
                octets: *length,
                route: *route,
            }),
            _ => None,
        }
    }

    /// Whether an application with this home has its end of a stream at this node, and hasn't closed it.
    pub fn has_end(&self, home: NodeNo, stream: KeyName, sae: SaeNo) -> bool
        ensures { (site : Site) (v : View) → Sees v self.now → home ≡ site.home sae → result ≡ has_end site v stream sae }
    {
        home == self.ends().known().me() && !self.was_closed(stream, sae)
    }

    /// Whether this node knows that the peer of a stream has joined it.
    pub fn has_joined(&self, stream: KeyName) -> bool
        ensures { (v : View) → Sees v self.now → result ≡ has_joined v stream }
    {
        self.ends().known().has_joined(stream)
    }

    /// The chunk of a stream at an index (ETSI GS QKD 004, GET_KEY).
    pub fn chunk(&self, stream: KeyName, index: u32) -> Option<&Fact>
        ensures { (v : View) → Sees v self.now → option_copied result ≡ chunk_at v stream index }
    {
        self.ends().known().chunk(stream, index)
    }
}
