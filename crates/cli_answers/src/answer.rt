// The answer to a question about a text.
use audit_text::AuditRefusal;
use qkd_base::{Memory, Octets};
use tag_bound::KeysRefusal;

/// What an answer comes to, which decides the exit status.
#[derive(Clone, Copy, Debug, PartialEq, Eq)]
pub enum Verdict {
    /// The question is answered, or answered with yes.
    Yes,
    /// An audit of all rules found one that is broken.
    BrokenRule,
    /// Lines of a scenario are refused, of which this one is the first, counted from 1.
    BadLine(u32),
}

/// An answer: what is written, and what it comes to.
#[derive(Drop)]
pub struct Answer {
    pub text: Octets,
    pub verdict: Verdict,
}

/// Why a text got no answer.
#[derive(Clone, Copy, Debug, PartialEq, Eq)]
pub enum AnswerRefusal {
    /// The first line that the question has no place for, counted from 1.
    BadLine(u32),
    /// Memory ran out.
    Memory,
}

impl From<Memory> for AnswerRefusal {
    ghost use Rattle.std.specs.Prelude.{◌≡◌};
    ghost use Rattle.cli_answers.specs.declared.answer.AnswerRefusal.TheVariants as refusals;

    ghost from_gives = { λ _ e. e ≡ refusals.Memory };

    fn from(_: Memory) -> Self {
        AnswerRefusal::Memory
    }
}

impl From<KeysRefusal> for AnswerRefusal {
    ghost use Rattle.std.specs.Prelude.{◌≡◌};
    ghost use Rattle.cli_answers.specs.Answers.{of_keys};

    ghost from_gives = { λ refusal e. e ≡ of_keys refusal };

    fn from(refusal: KeysRefusal) -> Self {
        match refusal {
            KeysRefusal::BadLine(line) => AnswerRefusal::BadLine(line),
            KeysRefusal::Memory => AnswerRefusal::Memory,
        }
    }
}

impl From<AuditRefusal> for AnswerRefusal {
    ghost use Rattle.std.specs.Prelude.{◌≡◌};
    ghost use Rattle.cli_answers.specs.Answers.{of_audit};

    ghost from_gives = { λ refusal e. e ≡ of_audit refusal };

    fn from(refusal: AuditRefusal) -> Self {
        match refusal {
            AuditRefusal::BadLine(line) => AnswerRefusal::BadLine(line),
            AuditRefusal::Memory => AnswerRefusal::Memory,
        }
    }
}
