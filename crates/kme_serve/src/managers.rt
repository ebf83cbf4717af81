ghost use Rattle.std.specs.Prelude.{◌≡◌, ◌+◌, ◌<◌, ◌≤◌, ℕ};
ghost use Rattle.net_model.specs.declared.event.Event.{Event as EventValue};
ghost use Rattle.kme_serve.specs.declared.turn.Turn.{Turn as TurnValue};

use crate::Turn;
use net_model::Event;
use qkd_base::NodeNo;
use std::sync::Wait;

/// The managers of some nodes. Each manager takes one turn after another, whoever asks.
pub trait Managers {
    /// What a caller keeps from turn to turn: its pass.
    type Pass;

    /// Whether a pass belongs to these managers.
    ghost fits: { Self → Self.Pass → Type 0 };

    /// How often a pass may still ask the manager of a node.
    ghost budget: { Self → ℕ → Self.Pass → ℕ };

    /// How many turns at the beginning of a manager's history a pass has seen.
    ghost seen: { Self → ℕ → Self.Pass → ℕ };

    /// Which events the manager of a node takes.
    ghost takes: { Self → ℕ → EventValue → Type 0 };

    /// Which turns the manager of a node may take: a relation of the pass before, the turn, and the pass after.
    ghost answers: { Self → ℕ → Self.Pass → TurnValue → Self.Pass → Type 0 };

    /// Asks the manager of a node, which may have to wait for its turn. It takes every event that `takes` allows.
    fn ask<R: Wait>(&self, rt: &R, pass: &mut Self::Pass, node: NodeNo, event: Event) -> Turn
        requires fits { fits self.now pass.old }
        requires budget { 0 < budget self.now node pass.old }
        requires takes { takes self.now node event }
        ensures fits { fits self.now pass.new }
        ensures event { result.event ≡ event }
        ensures answers { answers self.now node pass.old result pass.new }
        ensures place { (seen self.now node pass.old ≤ result.place) × (seen self.now node pass.new ≡ result.place + 1) }
        ensures budget { budget self.now node pass.new + 1 ≡ budget self.now node pass.old };
}
