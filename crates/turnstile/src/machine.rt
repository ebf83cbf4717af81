ghost use Rattle.std.specs.Prelude.{◌≡◌};

/// A machine that answers one request at a time.
pub trait Machine {
    /// The type of its requests.
    type Request;

    /// The type of its replies.
    type Reply;

    /// The type of its charter: the part of its state that no turn changes.
    type Charter;

    /// The machine's charter.
    ghost charter: { Self → Self.Charter };

    /// Whether a machine of this charter takes a request.
    ghost takes: { Self.Charter → Self.Request → Type 0 };

    /// The result of a turn: a relation of the machine before, the request, the reply and the machine after.
    ghost turns: { Self → Self.Request → Self.Reply → Self → Type 0 };

    /// Takes one turn: answers a request that the charter takes.
    fn turn(&mut self, request: Self::Request) -> Self::Reply
        requires { takes (charter self.old) request }
        ensures turns { turns self.old request result self.new }
        ensures charter { charter self.new ≡ charter self.old };
}
