// A question is answered from a source to a sink.
ghost use Rattle.std.specs.Prelude.{◌≡◌, ◌⊎◌};
ghost use Rattle.qkd_base.specs.Faults.{Rose};
ghost use Rattle.cli_answers.specs.Answers.{CanBeAsked, asked_of};
ghost use Rattle.cli_answers.specs.Exchange.{WasAnswered};
ghost use Rattle.cli_answers.specs.declared.exchange.Ended.TheVariants.{ReadFault, WriteFault};

use crate::answer::{AnswerRefusal, Verdict};
use crate::question::Question;
use crate::whole_source::{ReadRefusal, read_all};
use edge_io::{Sink, Source};
use std::alloc::Global;
use tag_bound::law_long_texts;

/// How an answer ended.
#[derive(Clone, Copy, Debug, PartialEq, Eq)]
pub enum Ended {
    /// The answer was written, and came to this.
    Answered(Verdict),
    /// The first line that is refused, counted from 1.
    BadLine(u32),
    /// The source failed.
    ReadFault,
    /// The sink failed.
    WriteFault,
    /// Memory ran out.
    Memory,
}

/// Reads a source to its end, or past the limit of a scenario. Then writes the answer to the question about its text.
pub fn answer_to<S: Source, W: Sink>(
    alloc: Global,
    question: &Question,
    source: &mut S,
    sink: &mut W,
) -> Ended
    requires fit { CanBeAsked question.now }
    ensures answered { WasAnswered (asked_of question.now) (S.left source.old) (S.left source.new) (W.taken sink.old) (W.taken sink.new) sink.old sink.new result }
    ensures read_fault { result ≡ ReadFault → Rose (S.faults source.old) (S.faults source.new) }
    ensures calm { (result ≡ ReadFault) ⊎ (S.faults source.new ≡ S.faults source.old) }
    ensures write_fault { result ≡ WriteFault → Rose (W.faults sink.old) (W.faults sink.new) }
{
    let bytes = match read_all(alloc, source) {
        Err(ReadRefusal::Fault) => return Ended::ReadFault,
        Err(ReadRefusal::Memory) => return Ended::Memory,
        Ok(bytes) => bytes,
    };
    law_long_texts();
    match question.answer(alloc, bytes.as_slice()) {
        Err(AnswerRefusal::BadLine(line)) => Ended::BadLine(line),
        Err(AnswerRefusal::Memory) => Ended::Memory,
        Ok(answer) => match sink.write_all(answer.text.as_slice()) {
            Ok(()) => Ended::Answered(answer.verdict),
            Err(_) => Ended::WriteFault,
        },
    }
}
