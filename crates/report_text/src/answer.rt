// How the answers to stream calls are written.
ghost use Rattle.std.specs.Prelude.{◌≡◌, ◌++◌, ◌∷◌, [], OnOk};
ghost use lib.Chars.{codes};
ghost use Rattle.std.specs.Fmt.{decimal};
ghost use Rattle.run_types.specs.Words.{words};
ghost use Rattle.run_types.specs.Texts.{answer_text, stream_words, chunk_words};

use crate::words::{hexadecimal, name, number, word};
use qkd_base::{KeyName, Memory, Octets};
use run_types::{Chunk, StreamAnswer};
use std::alloc::Global;

fn connected(line: &mut Octets, status: u8, stream: Option<KeyName>) -> Result<(), Memory>
    ensures { OnOk result (line.new ≡ line.old ++ 32 ∷ words (codes "OPEN_CONNECT" ∷ decimal status ∷ stream_words stream)) }
{
    word(line, b"OPEN_CONNECT")?;
    number(line, u64::from(status))?;
    match stream {
        Some(stream) => name(line, stream),
        None => Ok(()),
    }
}

fn got(alloc: Global, line: &mut Octets, status: u8, chunk: &Option<Chunk>) -> Result<(), Memory>
    ensures { OnOk result (line.new ≡ line.old ++ 32 ∷ words (codes "GET_KEY" ∷ decimal status ∷ chunk_words chunk.now)) }
{
    word(line, b"GET_KEY")?;
    number(line, u64::from(status))?;
    match chunk {
        Some(chunk) => {
            number(line, u64::from(chunk.index))?;
            hexadecimal(alloc, line, chunk.bytes.as_slice())
        }
        None => Ok(()),
    }
}

/// Adds the answer to a stream call (ETSI GS QKD 004 V2.1.1, clause 6). The only error is that memory runs out.
#[tactic(auto, unfolding(run_types::specs::Texts::answer_text))]
pub fn answer(alloc: Global, line: &mut Octets, answer: &StreamAnswer) -> Result<(), Memory>
    ensures { OnOk result (line.new ≡ line.old ++ 32 ∷ answer_text answer.now) }
{
    match answer {
        StreamAnswer::OpenConnect { status, stream } => connected(line, *status, *stream),
        StreamAnswer::GetKey { status, chunk } => got(alloc, line, *status, chunk),
        StreamAnswer::Close { status } => {
            word(line, b"CLOSE")?;
            number(line, u64::from(*status))
        }
    }
}
