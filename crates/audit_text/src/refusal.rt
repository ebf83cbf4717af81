// Errors of an audit of a text.
use qkd_base::Memory;

/// Why a text was not audited.
#[derive(Clone, Copy, Debug, PartialEq, Eq)]
pub enum AuditRefusal {
    /// The first line that belongs neither to a scenario nor, behind its end, to a report. Lines are counted from 1 over the
    /// whole text.
    BadLine(u32),
    /// Memory ran out.
    Memory,
}

impl From<Memory> for AuditRefusal {
    ghost use Rattle.std.specs.Prelude.{◌≡◌};
    ghost use Rattle.audit_text.specs.declared.refusal.AuditRefusal.TheVariants as refusals;

    ghost from_gives = { λ _ e. e ≡ refusals.Memory };

    fn from(_: Memory) -> Self {
        AuditRefusal::Memory
    }
}
