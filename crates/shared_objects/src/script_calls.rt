ghost use Rattle.std.specs.Prelude.{◌≡◌, ◌≢◌, ℕ, ◌+◌, ◌<◌, List, [], ◌∷◌, ◌++◌, length};
ghost use Rattle.turnstile.specs.Turns.{turn_of};
ghost use Rattle.shared_objects.specs.Asked.{IsTaken};
ghost use Rattle.shared_objects.specs.Said.{Said, said_on};
ghost use Rattle.shared_objects.specs.ScriptCalling.{IsAnswered};

use std::sync::Wait;
use turnstile::Machine;

/// The right to call several machines, each a limited number of times.
pub trait Calls<M: Machine> {
    /// The machines as they were at the beginning.
    ghost openings: { Self → List M };

    /// Whether each call that was made has its place in its machine's history.
    ghost placed: { Self → Type 0 };

    /// How many calls of the machine at an index are left.
    ghost budget: { Self → ℕ → ℕ };

    /// The prefix of that machine's history that was seen.
    ghost seen: { Self → ℕ → List (M.Request × M.Reply) };

    /// What was said between two moments: a relation of the state before, the calls with their replies, and the state after.
    ghost went: { Self → List (Said M.Request M.Reply) → Self → Type 0 };

    /// Calls a machine that takes the request. It waits for the caller's turn and returns the call's place in the machine's
    /// history and the reply. The place is behind all that was seen of that history.
    fn call<R: Wait>(&mut self, rt: &R, machine: usize, request: M::Request) -> (u64, M::Reply)
        requires placed { placed self.old }
        requires taken { IsTaken M.charter M.takes (openings self.old) (record { machine = machine; request = request }) }
        requires budget { 0 < budget self.old machine }
        ensures placed { placed self.new }
        ensures went { went self.old (record { machine = machine; place = result.0; request = request; reply = result.1 } ∷ []) self.new }
        ensures answered { IsAnswered (turn_of M.charter M.takes M.turns) (openings self.old) (record { machine = machine; place = result.0; request = request; reply = result.1 }) (seen self.old machine) (seen self.new machine) }
        ensures others { (i : ℕ) → i ≢ machine → seen self.new i ≡ seen self.old i };

    /// If nothing changed, nothing was said.
    ghost still: { (c : Self) → went c [] c };

    /// Two consecutive conversations are one: their concatenation.
    ghost onward: { (a b c : Self) (said more : List (Said M.Request M.Reply)) → went a said b → went b more c → went a (said ++ more) c };

    /// The machines at the beginning stay the same, and each call of a machine takes one from its budget.
    ghost spends: { (a b : Self) (said : List (Said M.Request M.Reply)) → went a said b → (openings b ≡ openings a) × ((i : ℕ) → budget b i + length (said_on i said) ≡ budget a i) };
}
