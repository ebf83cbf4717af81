// How refusals, and the results of frames and of starts, are written.
ghost use Rattle.std.specs.Prelude.{◌≡◌, ◌++◌, ◌∷◌, [], OnOk};
ghost use Rattle.std.specs.Fmt.{decimal};
ghost use Rattle.run_types.specs.Words.{words, tag_text};
ghost use Rattle.run_types.specs.Texts.{refusal_text, result_text, start_text};

use crate::words::{kind, name, number, tag, word};
use qkd_base::{Memory, Octets};
use run_types::{FrameResult, Refusal, StartResult};
use std::alloc::Global;

// Adds a word and a number.
fn counted(line: &mut Octets, first: &[u8], count: u64) -> Result<(), Memory>
    ensures { OnOk result (line.new ≡ line.old ++ 32 ∷ words (first.now ∷ decimal count ∷ [])) }
{
    word(line, first)?;
    number(line, count)
}

// Adds a word and two numbers.
fn paired(line: &mut Octets, first: &[u8], one: u64, other: u64) -> Result<(), Memory>
    ensures { OnOk result (line.new ≡ line.old ++ 32 ∷ words (first.now ∷ decimal one ∷ decimal other ∷ [])) }
{
    counted(line, first, one)?;
    number(line, other)
}

// Adds a word and two tags.
fn tagged(
    alloc: Global,
    line: &mut Octets,
    first: &[u8],
    given: u64,
    computed: u64,
) -> Result<(), Memory>
    ensures { OnOk result (line.new ≡ line.old ++ 32 ∷ words (first.now ∷ tag_text given ∷ tag_text computed ∷ [])) }
{
    word(line, first)?;
    tag(alloc, line, given)?;
    tag(alloc, line, computed)
}

/// Adds a refusal: the reason why a request was not carried out.
#[tactic(auto, unfolding(run_types::specs::Texts::refusal_text))]
pub fn refusal(alloc: Global, line: &mut Octets, refusal: Refusal) -> Result<(), Memory>
    ensures { OnOk result (line.new ≡ line.old ++ 32 ∷ refusal_text refusal) }
{
    match refusal {
        Refusal::Down => word(line, b"down"),
        Refusal::Stopped => word(line, b"stopped"),
        Refusal::Memory => word(line, b"memory"),
        Refusal::LinkFull => word(line, b"link-full 1024"),
        Refusal::NoBlock => word(line, b"no-bits"),
        Refusal::DeviceFault => word(line, b"device-fault"),
        Refusal::NotAllowed => word(line, b"not-allowed"),
        Refusal::NoRoute => word(line, b"no-route"),
        Refusal::PoolFull => word(line, b"pool-full 4096"),
        Refusal::UnknownStream => word(line, b"unknown-stream"),
        Refusal::JournalFull { length, need } => paired(line, b"journal-full", length, need),
        Refusal::NoRandom => word(line, b"no-random"),
        Refusal::NoFrame { count } => counted(line, b"no-frame", count),
        Refusal::NoBit { bits } => counted(line, b"no-bit", u64::from(bits)),
        Refusal::BadFrame { place } => counted(line, b"bad-frame", u64::from(place)),
        Refusal::WrongLane { link, way } => {
            paired(line, b"wrong-lane", u64::from(link), u64::from(way))
        }
        Refusal::NoBits { have } => counted(line, b"no-bits", have),
        Refusal::BadTag { given, computed } => tagged(alloc, line, b"bad-tag", given, computed),
        Refusal::Few { count } => counted(line, b"few", u64::from(count)),
        Refusal::Unknown { place } => counted(line, b"unknown", u64::from(place)),
        Refusal::Repeated { place } => counted(line, b"repeated", u64::from(place)),
        Refusal::Handed { place } => counted(line, b"handed", u64::from(place)),
    }
}

/// Adds the result of a frame that came to its receiver.
#[tactic(auto, unfolding(run_types::specs::Texts::result_text))]
pub fn frame_result(alloc: Global, line: &mut Octets, came: FrameResult) -> Result<(), Memory>
    ensures { OnOk result (line.new ≡ line.old ++ 32 ∷ result_text came) }
{
    match came {
        FrameResult::Taken {
            kind: of,
            name: fact,
        } => {
            word(line, b"taken")?;
            kind(line, of)?;
            name(line, fact)
        }
        FrameResult::Again {
            kind: of,
            name: fact,
        } => {
            word(line, b"again")?;
            kind(line, of)?;
            name(line, fact)
        }
        FrameResult::Refused(cause) => refusal(alloc, line, cause),
    }
}

/// Adds the result of starting a node's manager.
#[tactic(auto, unfolding(run_types::specs::Texts::start_text))]
pub fn start_result(line: &mut Octets, start: StartResult) -> Result<(), Memory>
    ensures { OnOk result (line.new ≡ line.old ++ 32 ∷ start_text start) }
{
    match start {
        StartResult::Started => word(line, b"started"),
        StartResult::WasUp => word(line, b"up"),
        StartResult::Stopped => word(line, b"stopped"),
        StartResult::Foreign { place } => counted(line, b"foreign", place),
        StartResult::Memory => word(line, b"memory"),
    }
}
