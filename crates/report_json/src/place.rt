// Where a report stands, for the rounds of its settles.
ghost use Rattle.std.specs.Prelude.{◌≡◌, ◌<◌, ◌≤◌, ◌+◌, ◌^◌};
ghost use Rattle.report_json.specs.Rounds.{is_tick, is_pass, start, round_of, behind};

use run_types::{Item, NumberedItem};

/// A place in a report: the line and the round of the last item, and whether that item is a pass. Rounds are counted from
/// 1 in each line.
#[derive(Clone, Copy, Debug, PartialEq, Eq)]
pub struct Place {
    pub line: u32,
    pub round: u64,
    pub passed: bool,
}

fn is_tick(item: &Item) -> bool
    ensures { result ≡ is_tick item.now }
{
    matches!(item, Item::Ticked { .. } | Item::NotTicked { .. })
}

fn is_pass(item: &Item) -> bool
    ensures { result ≡ is_pass item.now }
{
    matches!(item, Item::Passed { .. })
}

impl Place {
    /// The place before the first item.
    pub fn start() -> Self
        ensures { result ≡ start }
    {
        Place {
            line: 0,
            round: 1,
            passed: false,
        }
    }

    /// The round of the next item. A round begins at a tick behind a pass of the same line.
    pub fn round_of(self, told: &NumberedItem) -> u64
        requires { self.round + 1 < 2 ^ 64 }
        ensures round { result ≡ round_of self told.now }
        ensures next { result ≤ self.round + 1 }
    {
        if self.line != told.number {
            1
        } else if self.passed && is_tick(&told.item) {
            self.round + 1
        } else {
            self.round
        }
    }

    /// The place behind the next item.
    pub fn behind(self, told: &NumberedItem) -> Self
        requires { self.round + 1 < 2 ^ 64 }
        ensures place { result ≡ behind self told.now }
        ensures next { result.round ≤ self.round + 1 }
    {
        Place {
            line: told.number,
            round: self.round_of(told),
            passed: is_pass(&told.item),
        }
    }
}
