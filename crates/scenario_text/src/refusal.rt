// Why a scenario or a line is refused.
use qkd_base::Memory;

/// Why a line was refused.
#[derive(Clone, Copy, Debug, PartialEq, Eq)]
pub enum LineRefusal {
    Refused,
    Memory,
}

impl From<Memory> for LineRefusal {
    ghost use Rattle.scenario_text.specs.declared.refusal.LineRefusal.TheVariants as refusals;
    ghost use Rattle.std.specs.Prelude.{◌≡◌};

    ghost from_gives = { λ _ e. e ≡ refusals.Memory };

    fn from(_: Memory) -> Self {
        LineRefusal::Memory
    }
}

/// Why a scenario was refused.
#[derive(Clone, Copy, Debug, PartialEq, Eq)]
pub enum ScenarioRefusal {
    /// This line, counted from 1, is the first that is refused.
    BadLine(u32),
    /// Memory ran out.
    Memory,
}
