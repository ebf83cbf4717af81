// Ports, at which listeners are opened.
ghost use Rattle.std.specs.Prelude.{◌≡◌, ◌<◌, ◌∷◌, [], List, ℕ, Option, OnOk, OnErr, IfOk, IfSome, IsSome, length};
ghost use Rattle.qkd_base.specs.Faults.{HasCause};
ghost use Rattle.edge_io.specs.Writes.{Adds};
ghost use Rattle.edge_io.specs.Connections.{IsFirstQueue, IsNewDoor};

use crate::{Failed, Listener};

/// The ports of a machine, at each of which a listener can be opened.
pub trait Ports {
    type Door: Listener;

    /// The ports that were asked for, in order. `None` where contracts don't know them.
    ghost asked: { Self → Option (List ℕ) };

    /// The listeners that came back, in order. `None` where contracts don't know them.
    ghost back: { Self → Option (List Self.Door) };

    /// What waits at a port: the connections of its listener, and those of each of that listener's twins, in order. Each
    /// connection is told by the bytes that its peer sends. `None` where contracts don't know them.
    ghost queues: { Self → ℕ → Option (List (List (List ℕ))) };

    /// How often an opening failed.
    ghost faults: { Self → ℕ };

    /// Opens a port. The answer is its listener, before the listener's first call.
    fn open(&mut self, port: u16) -> Result<Self::Door, Failed>
        requires few { IfSome (asked self.old) (λ ports. length ports < 65536) }
        ensures asked { Adds (asked self.old) (asked self.new) (port ∷ []) }
        ensures door { IfOk result (λ d. IsNewDoor (IsSome (asked self.old)) port (Self.Door.port d) (Self.Door.accepted d) (Self.Door.finished d) (Self.Door.faults d) (Self.Door.waiting d) (Self.Door.done d)) }
        ensures queue { IfOk result (λ d. IsFirstQueue (queues self.old port) (Self.Door.waiting d) (Self.Door.twins d)) }
        ensures refused { OnErr result (queues self.new ≡ queues self.old) }
        ensures others { (other : ℕ) → ¬ (other ≡ port) → queues self.new other ≡ queues self.old other }
        ensures cause { HasCause (faults self.old) (faults self.new) result }
        ensures calm { OnOk result (faults self.new ≡ faults self.old) }
        ensures same { back self.new ≡ back self.old };

    /// Takes a listener back and closes it.
    fn shut(&mut self, door: Self::Door)
        requires few { IfSome (back self.old) (λ doors. length doors < 65536) }
        ensures back { Adds (back self.old) (back self.new) (door ∷ []) }
        ensures same { (asked self.new ≡ asked self.old) × (queues self.new ≡ queues self.old) × (faults self.new ≡ faults self.old) };
}
