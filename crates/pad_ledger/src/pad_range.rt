// Bytes of a lane that were claimed.
ghost use Rattle.std.specs.Prelude.{◌≡◌, ◌+◌, ◌<◌, ◌^◌};

use std::marker::Model;

/// Bytes of a lane that were claimed and may mask one frame. The value can't be copied or dropped. Only
/// [`PadRange::spend`] and the ledger's `burn` consume it, so no byte masks twice (one-time pad; Wegman and Carter
/// 1981, section 4).
#[derive(Debug)]
pub struct PadRange {
    start: u64,
    size: u64,
}

impl Model for PadRange {
    ghost use Rattle.std.specs.Prelude.{◌+◌, ◌<◌, ◌^◌};
    ghost use Rattle.pad_ledger.specs.Ledger.{Range};

    ghost Value = { Range };

    ghost view = { λ r. record { start = r.start; len = r.size } };

    ghost invariant = { λ r. r.start + r.size < 2 ^ 32 };
}

// The range of these bytes. Only a ledger calls this.
pub(crate) fn range_of(start: u64, size: u64) -> PadRange
    requires { start + size < 2 ^ 32 }
    ensures { result ≡ record { start = start; len = size } }
{
    PadRange { start, size }
}

impl PadRange {
    /// The offset in the lane of the range's first byte.
    pub fn start(&self) -> u64
        ensures start { result ≡ self.now.start }
        ensures below { self.now.start + self.now.len < 2 ^ 32 }
    {
        self.start
    }

    /// How many bytes the range has.
    pub fn len(&self) -> u64
        ensures len { result ≡ self.now.len }
        ensures below { self.now.start + self.now.len < 2 ^ 32 }
    {
        self.size
    }

    /// Ends the range after its bytes have masked a frame.
    pub fn spend(self) {
        let PadRange { start: _, size: _ } = self;
    }
}
