// Laws: a machine on one side stays on that side.
ghost use Rattle.std.specs.Prelude.{List};
ghost use Rattle.turnstile.specs.Turns.{turn_of, Leads};
ghost use Rattle.shared_objects.specs.declared.either.Either.{Either as OneOf};
ghost use Rattle.shared_objects.specs.declared.either.Either.TheVariants.{Left, Right};
ghost use Rattle.shared_objects.specs.Sides.{charter_of, TakesOn, TurnsOn};
ghost use Rattle.shared_objects.specs.Histories.{StaysLeft, StaysRight};

use turnstile::Machine;

/// A history of a machine on the left is a history of the left kind: all requests and replies are on the left, and so is the
/// machine at its end.
pub fn law_left_stays_left<A: Machine, B: Machine>()
    ensures { (m : A) (log : List (OneOf A.Request B.Request × OneOf A.Reply B.Reply)) (n : OneOf A B) →
        Leads (turn_of (charter_of A.charter B.charter) (TakesOn A.takes B.takes) (TurnsOn A.turns B.turns)) (Left m) log n → StaysLeft (turn_of A.charter A.takes A.turns) m log n }
{}

/// A history of a machine on the right is a history of the right kind: all requests and replies are on the right, and so is the
/// machine at its end.
pub fn law_right_stays_right<A: Machine, B: Machine>()
    ensures { (m : B) (log : List (OneOf A.Request B.Request × OneOf A.Reply B.Reply)) (n : OneOf A B) →
        Leads (turn_of (charter_of A.charter B.charter) (TakesOn A.takes B.takes) (TurnsOn A.turns B.turns)) (Right m) log n → StaysRight (turn_of B.charter B.takes B.turns) m log n }
{}
