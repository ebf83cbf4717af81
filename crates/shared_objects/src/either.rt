ghost use Rattle.std.specs.Prelude.{◌≡◌};
ghost use Rattle.shared_objects.specs.Sides.{charter_of, TakesOn, TurnsOn};

use turnstile::Machine;

/// A value of one of two kinds, left or right. As a machine it takes requests and gives replies of its own kind, and it never
/// changes its kind.
#[derive(Drop)]
pub enum Either<A, B> {
    Left(A),
    Right(B),
}

impl<A, B> Either<A, B> {
    ghost use Rattle.shared_objects.specs.declared.either.Either.TheVariants.{Left, Right};

    /// Returns the value on the left.
    pub fn into_left(self) -> A
        requires { (left : A) × (self ≡ Left left) }
        ensures { self ≡ Left result }
    {
        match self {
            Either::Left(left) => left,
            Either::Right(_) => unreachable!(),
        }
    }

    /// Returns the value on the right.
    pub fn into_right(self) -> B
        requires { (right : B) × (self ≡ Right right) }
        ensures { self ≡ Right result }
    {
        match self {
            Either::Right(right) => right,
            Either::Left(_) => unreachable!(),
        }
    }
}

impl<A: Machine, B: Machine> Machine for Either<A, B> {
    type Request = Either<A::Request, B::Request>;

    type Reply = Either<A::Reply, B::Reply>;

    type Charter = Either<A::Charter, B::Charter>;

    ghost charter = { λ m. charter_of A.charter B.charter m };

    ghost takes = { λ c request. TakesOn A.takes B.takes c request };

    ghost turns = { λ m request reply n. TurnsOn A.turns B.turns m request reply n };

    fn turn(&mut self, request: Either<A::Request, B::Request>) -> Either<A::Reply, B::Reply> {
        match (self, request) {
            (Either::Left(machine), Either::Left(request)) => Either::Left(machine.turn(request)),
            (Either::Right(machine), Either::Right(request)) => {
                Either::Right(machine.turn(request))
            }
            _ => unreachable!(),
        }
    }
}
