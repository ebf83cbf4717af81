// The claims of a lane's bytes.
ghost use Rattle.std.specs.Prelude.{◌≡◌, ◌+◌, ◌-◌, ◌<◌, ◌≤◌, ◌==◌, ◌^◌, ◌↔◌, IsOk, IfOk, IfErr, if◌then◌else◌};
ghost use Rattle.pad_ledger.specs.Ledger.{Ledger, received_more, IsLedger};

use crate::pad_range::range_of;
use crate::{Counts, PadRange, Short};
use std::marker::Model;

/// The bytes of one lane at its sender: how many were received, the end up to which they may be claimed, and how many
/// are used. Claims follow one another from the front, so no byte is claimed twice. The first 8 bytes are the hash key.
#[derive(Debug, Drop)]
pub struct PadLedger {
    used: u64,
    end: u64,
    received: u64,
    burnt: u64,
}

impl Model for PadLedger {
    ghost use Rattle.pad_ledger.specs.Ledger.{Ledger, IsLedger};

    ghost Value = { Ledger };

    ghost view = { λ l. record { used = l.used; end = l.end; received = l.received; burnt = l.burnt } };

    ghost invariant = { λ l. IsLedger (record { used = l.used; end = l.end; received = l.received; burnt = l.burnt }) };
}

impl PadLedger {
    /// A lane of which no byte was received.
    pub fn new() -> Self
        ensures { result ≡ record { used = 0; end = 0; received = 0; burnt = 0 } }
    {
        PadLedger {
            used: 0,
            end: 0,
            received: 0,
            burnt: 0,
        }
    }

    /// Notes that more bytes were received. The first 8 bytes of the lane are its hash key, so they are used at once.
    pub fn receive(&mut self, n: u64)
        requires first { 8 ≤ n }
        requires fits { self.old.received + n < 2 ^ 32 }
        ensures { self.new ≡ received_more self.old n }
    {
        if self.received == 0 {
            self.used = 8;
            self.end = 8;
        }
        self.received += n;
    }

    /// Lets claims go up to a later end, once this end is durable.
    pub fn raise(&mut self, end: u64)
        requires later { self.old.end ≤ end }
        requires received { end ≤ self.old.received }
        ensures { self.new ≡ record self.old { end = end } }
    {
        self.end = end;
    }

    /// Claims the next `n` bytes.
    pub fn claim(&mut self, n: u64) -> Result<PadRange, Short>
        ensures reach { IsOk result ↔ (self.old.used + n ≤ self.old.end) }
        ensures claimed { IfOk result (λ range. (range ≡ record { start = self.old.used; len = n })
            × (self.new ≡ record self.old { used = self.old.used + n })) }
        ensures short { IfErr result (λ e. (e.used ≡ self.old.used) × (e.end ≡ self.old.end) × (self.new ≡ self.old)) }
    {
        if self.end - self.used < n {
            return Err(Short {
                used: self.used,
                end: self.end,
            });
        }
        let range = range_of(self.used, n);
        self.used += n;
        Ok(range)
    }

    /// Gives up the bytes from the last claim to the end. A restart does so, since it isn't known which of them were
    /// claimed before it.
    pub fn burn_to_end(&mut self)
        ensures { self.new ≡ record self.old { used = self.old.end; burnt = self.old.burnt + (self.old.end - self.old.used) } }
    {
        self.burnt += self.end - self.used;
        self.used = self.end;
    }

    /// Gives up the bytes of a claim. They mask nothing then.
    pub fn burn(&mut self, range: PadRange)
        requires claimed { range.start + range.len ≤ self.old.used }
        requires unspent { self.old.burnt + range.len ≤ self.old.used }
        ensures { self.new ≡ record self.old { burnt = self.old.burnt + range.len } }
    {
        self.burnt += range.len();
        range.spend();
    }

    /// Counts the bytes by what became of them. The counts add up to the bytes received.
    pub fn counts(&self) -> Counts
        ensures counts { result ≡ record { received = self.now.received; unused = self.now.received - self.now.used; spent = self.now.used - self.now.burnt; burnt = self.now.burnt } }
        ensures sum { result.received ≡ result.unused + result.spent + result.burnt }
        ensures ledger { IsLedger self.now }
    {
        Counts {
            received: self.received,
            unused: self.received - self.used,
            spent: self.used - self.burnt,
            burnt: self.burnt,
        }
    }
}
