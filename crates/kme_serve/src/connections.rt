// How many connections a worker serves.
ghost use Rattle.std.specs.Prelude.{◌≡◌, ◌≤◌, ◌<◌, true, false};
ghost use Rattle.kme_serve.specs.Endless.{endless};

use std::marker::Model;
use std::sync::Wait;

// So many connections that no worker comes to their end.
const ENDLESS: u64 = 1 << 48;

/// How many connections a worker serves: a number of them, or connections without end.
#[derive(Clone, Copy, Debug, PartialEq, Eq)]
pub struct Connections {
    most: u64,
}

impl Model for Connections {
    ghost use Rattle.std.specs.Prelude.{ℕ, ◌≤◌};
    ghost use Rattle.kme_serve.specs.Endless.{endless};

    ghost Value = { ℕ };

    ghost view = { λ c. c.most };

    ghost invariant = { λ c. c.most ≤ endless };

    ghost inverse = { λ n. record { most = n } };
}

impl Connections {
    /// So many connections.
    pub fn new(count: u32) -> Self
        ensures { result ≡ count }
    {
        Connections {
            most: u64::from(count),
        }
    }

    /// Connections without end.
    pub fn forever() -> Self
        ensures { result ≡ endless }
    {
        Connections { most: ENDLESS }
    }

    /// Their number.
    pub fn count(self) -> u64
        ensures number { result ≡ self }
        ensures few { self ≤ endless }
    {
        self.most
    }

    // Whether so many are all of them. Where there is no end to them, the answer is never yes.
    pub(crate) fn are_served<R: Wait>(self, rt: &R, served: u64) -> bool
        requires { served ≤ self }
        ensures some { result ≡ false → served < self }
        ensures all { result ≡ true → (served ≡ self) × ¬ (self ≡ endless) }
    {
        if served < self.most {
            return false;
        }
        if self.most < ENDLESS {
            return true;
        }
        for _ in rt.forever() {}
        unreachable!()
    }
}
