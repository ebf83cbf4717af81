// Errors of reading a line of a report.
use qkd_base::Memory;

/// Why a line of a report was not read.
#[derive(Clone, Copy, Debug, PartialEq, Eq)]
pub enum LineRefusal {
    /// No row of a report has this text.
    NotALine,
    /// Memory ran out.
    Memory,
}

impl From<Memory> for LineRefusal {
    ghost use Rattle.report_grammar.specs.declared.refusal.LineRefusal.TheVariants as refusals;
    ghost use Rattle.std.specs.Prelude.{◌≡◌};

    ghost from_gives = { λ _ e. e ≡ refusals.Memory };

    fn from(_: Memory) -> Self {
        LineRefusal::Memory
    }
}
