// What is said of a text.
use crate::reason::Reason;
use qkd_base::{Items, Octets};

/// A line that is refused: its number, counted from 1, its octets without their end, and why.
#[derive(Debug, Drop)]
pub struct Refusal {
    pub number: u32,
    pub line: Octets,
    pub reason: Reason,
}

/// What a scenario declares, and the number of its line `end`.
#[derive(Clone, Copy, Debug, PartialEq, Eq)]
pub struct Counts {
    pub nodes: usize,
    pub links: usize,
    pub applications: usize,
    pub lines: u32,
}

/// What is said of a text: it is a scenario, or lines of it are refused.
#[derive(Debug, Drop)]
pub enum Checked {
    Fine(Counts),
    /// The first refused lines, at most ten and at least one.
    Refused(Items<Refusal>),
}

impl Checked {
    ghost use Rattle.std.specs.Prelude.{◌≡◌};
    ghost use Rattle.std.specs.Option.{option_map};
    ghost use Rattle.scenario_check.specs.Check.{first_number};

    /// The number of the first line that is refused. `None` if the text is a scenario.
    pub fn first_refused(&self) -> Option<u32>
        ensures { result ≡ first_number self.now }
    {
        match self {
            Checked::Fine(_) => None,
            Checked::Refused(refusals) => match refusals.get(0) {
                Some(refusal) => Some(refusal.number),
                None => None,
            },
        }
    }
}
