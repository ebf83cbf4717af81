// The number of an application (SAE).
ghost use Rattle.std.specs.Prelude.{◌≡◌, ◌<◌, Some, None, nat_lt, if◌then◌else◌};

use std::marker::Model;

/// The number of an application (SAE), below 256. Contracts see it as a number.
#[derive(Clone, Copy, Debug, PartialEq, Eq, PartialOrd, Ord, Hash)]
pub struct SaeNo {
    number: u16,
}

impl Model for SaeNo {
    ghost use Rattle.std.specs.Prelude.{ℕ, ◌<◌};

    ghost Value = { ℕ };

    ghost view = { λ a. a.number };

    ghost invariant = { λ a. a.number < 256 };

    ghost inverse = { λ n. record { number = n } };
}

impl SaeNo {
    /// The application (SAE) of this number. `None` if the number is 256 or more.
    pub fn new(number: u16) -> Option<Self>
        ensures { result ≡ (if nat_lt number 256 then Some number else None) }
    {
        if number < 256 {
            Some(SaeNo { number })
        } else {
            None
        }
    }

    /// The number.
    pub fn get(self) -> u16
        ensures number { result ≡ self }
        ensures below { self < 256 }
    {
        self.number
    }
}
