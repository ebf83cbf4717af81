// The number of a node.
ghost use Rattle.std.specs.Prelude.{◌≡◌, ◌<◌, Some, None, nat_lt, if◌then◌else◌};

use std::marker::Model;

/// The number of a node, below 16. Contracts see it as a number.
#[derive(Clone, Copy, Debug, PartialEq, Eq, PartialOrd, Ord, Hash)]
pub struct NodeNo {
    number: u8,
}

impl Model for NodeNo {
    ghost use Rattle.std.specs.Prelude.{ℕ, ◌<◌};

    ghost Value = { ℕ };

    ghost view = { λ a. a.number };

    ghost invariant = { λ a. a.number < 16 };

    ghost inverse = { λ n. record { number = n } };
}

impl NodeNo {
    /// The node of this number. `None` if the number is 16 or more.
    pub fn new(number: u8) -> Option<Self>
        ensures { result ≡ (if nat_lt number 16 then Some number else None) }
    {
        if number < 16 {
            Some(NodeNo { number })
        } else {
            None
        }
    }

    /// The number.
    pub fn get(self) -> u8
        ensures number { result ≡ self }
        ensures below { self < 16 }
    {
        self.number
    }
}
