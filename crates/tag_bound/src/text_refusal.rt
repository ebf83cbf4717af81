// Why keys are refused.
use qkd_base::Memory;

/// Why keys are refused.
#[derive(Clone, Copy, Debug, PartialEq, Eq)]
pub enum KeysRefusal {
    /// The line of this number, counted from 1, is the first that has no key, repeats a key, or is the 10,001st.
    BadLine(u32),
    /// Memory ran out.
    Memory,
}

impl From<Memory> for KeysRefusal {
    ghost use Rattle.tag_bound.specs.declared.text_refusal.KeysRefusal.TheVariants as refusals;
    ghost use Rattle.std.specs.Prelude.{◌≡◌};

    ghost from_gives = { λ _ e. e ≡ refusals.Memory };

    fn from(_: Memory) -> Self {
        KeysRefusal::Memory
    }
}
