// The number of a link.
ghost use Rattle.std.specs.Prelude.{◌≡◌, ◌<◌, Some, None, nat_lt, if◌then◌else◌};

use std::marker::Model;

/// The number of a link, below 32. Contracts see it as a number.
#[derive(Clone, Copy, Debug, PartialEq, Eq, PartialOrd, Ord, Hash)]
pub struct LinkNo {
    number: u8,
}

impl Model for LinkNo {
    ghost use Rattle.std.specs.Prelude.{ℕ, ◌<◌};

    ghost Value = { ℕ };

    ghost view = { λ a. a.number };

    ghost invariant = { λ a. a.number < 32 };

    ghost inverse = { λ n. record { number = n } };
}

impl LinkNo {
    /// The link of this number. `None` if the number is 32 or more.
    pub fn new(number: u8) -> Option<Self>
        ensures { result ≡ (if nat_lt number 32 then Some number else None) }
    {
        if number < 32 {
            Some(LinkNo { number })
        } else {
            None
        }
    }

    /// The number.
    pub fn get(self) -> u8
        ensures number { result ≡ self }
        ensures below { self < 32 }
    {
        self.number
    }
}
