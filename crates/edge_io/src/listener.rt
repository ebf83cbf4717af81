// Listeners, which accept connections.
ghost use Rattle.std.specs.Prelude.{◌≡◌, ◌+◌, ◌<◌, ◌^◌, ◌∷◌, [], List, ℕ, Option, OnOk, IfOk, MatchResult, IsSome};
ghost use Rattle.qkd_base.specs.Faults.{HasCause};
ghost use Rattle.edge_io.specs.Writes.{Adds};
ghost use Rattle.edge_io.specs.Connections.{Finished, IsNext, IsFirstQueue, IsNewDoor};

use crate::{Ended, Failed, Sink, Source};

/// A listener accepts the connections of one port. A connection has a source, which gives the bytes that its peer
/// sends, and a sink, which takes the bytes that go to the peer.
pub trait Listener {
    type In: Source;

    type Out: Sink;

    /// The number of the listener's port.
    ghost port: { Self → ℕ };

    /// How many connections the listener accepted.
    ghost accepted: { Self → ℕ };

    /// How many of the accepted connections were finished.
    ghost finished: { Self → ℕ };

    /// The connections that wait, in order, each as the bytes that its peer sends. `None` where contracts don't know
    /// them.
    ghost waiting: { Self → Option (List (List ℕ)) };

    /// The queues of the twins to come, in order: the connections that will wait for each. `None` where contracts don't
    /// know them.
    ghost twins: { Self → Option (List (List (List ℕ))) };

    /// The finished connections, in order. `None` where contracts don't know them.
    ghost done: { Self → Option (List Finished) };

    /// How often a call of `accept` or `twin` failed.
    ghost faults: { Self → ℕ };

    /// Accepts the next connection and gives its source and its sink, neither of which has failed yet. A failure
    /// accepts no connection.
    fn accept(&mut self) -> Result<(Self::In, Self::Out), Failed>
        requires few { accepted self.old < 2 ^ 48 }
        ensures next { MatchResult result
            (λ ends. (accepted self.new ≡ accepted self.old + 1) × IsNext (waiting self.old) (waiting self.new) (Self.In.left ends.0) (Self.Out.taken ends.1))
            (λ _. (accepted self.new ≡ accepted self.old) × (waiting self.new ≡ waiting self.old)) }
        ensures fresh { IfOk result (λ ends. (Self.In.faults ends.0 ≡ 0) × (Self.Out.faults ends.1 ≡ 0)) }
        ensures cause { HasCause (faults self.old) (faults self.new) result }
        ensures calm { OnOk result (faults self.new ≡ faults self.old) }
        ensures same { (port self.new ≡ port self.old) × (finished self.new ≡ finished self.old) × (twins self.new ≡ twins self.old) × (done self.new ≡ done self.old) };

    /// Takes the source and the sink of a connection back, with the way it ended, and closes the connection.
    fn finish(&mut self, source: Self::In, sink: Self::Out, ended: Ended)
        requires open { finished self.old < accepted self.old }
        ensures finished { finished self.new ≡ finished self.old + 1 }
        ensures done { Adds (done self.old) (done self.new) (record {
          left = Self.In.left source;
          taken = Self.Out.taken sink;
          read_faults = Self.In.faults source;
          write_faults = Self.Out.faults sink;
          ended = ended;
        } ∷ []) }
        ensures same { (port self.new ≡ port self.old) × (accepted self.new ≡ accepted self.old) × (waiting self.new ≡ waiting self.old) × (twins self.new ≡ twins self.old) × (faults self.new ≡ faults self.old) };

    /// A second listener of the same port. The connections that wait for the first one stay with it.
    fn twin(&mut self) -> Result<Self, Failed>
    where
        Self: Sized,
        ensures twin { IfOk result (λ d. IsNewDoor (IsSome (waiting self.old) × IsSome (done self.old)) (port self.old) (port d) (accepted d) (finished d) (faults d) (waiting d) (done d)) }
        ensures queue { MatchResult result (λ d. IsFirstQueue (twins self.old) (waiting d) (twins self.new)) (λ _. twins self.new ≡ twins self.old) }
        ensures cause { HasCause (faults self.old) (faults self.new) result }
        ensures calm { OnOk result (faults self.new ≡ faults self.old) }
        ensures same { (port self.new ≡ port self.old) × (accepted self.new ≡ accepted self.old) × (finished self.new ≡ finished self.old) × (waiting self.new ≡ waiting self.old) × (done self.new ≡ done self.old) };
}
