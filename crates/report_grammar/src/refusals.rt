// How refusals and the results of frames are read.
ghost use Rattle.std.specs.Prelude.{◌≡◌};
ghost use Rattle.report_grammar.specs.Words.{words_in};
ghost use Rattle.report_grammar.specs.Refusals.{bare_at, journal_full_at, wrong_lane_at, bad_tag_at, of_frame_at, counted_at, worded_at, refusal_at, taken_at, again_at, result_at};

use crate::fields::{byte, kind, long, name, short, tag};
use crate::words::{is_over, one, two, word};
use run_types::{FrameResult, Refusal};
use scenario_text::words::number;

// A refusal that is one word.
#[tactic(auto, unfolding(crate::specs::Refusals::bare_at))]
fn bare(word: &[u8]) -> Option<Refusal>
    ensures { result ≡ bare_at word.now }
{
    if word == b"down".as_slice() {
        Some(Refusal::Down)
    } else if word == b"stopped".as_slice() {
        Some(Refusal::Stopped)
    } else if word == b"memory".as_slice() {
        Some(Refusal::Memory)
    } else if word == b"no-bits".as_slice() {
        Some(Refusal::NoBlock)
    } else if word == b"device-fault".as_slice() {
        Some(Refusal::DeviceFault)
    } else if word == b"not-allowed".as_slice() {
        Some(Refusal::NotAllowed)
    } else if word == b"no-route".as_slice() {
        Some(Refusal::NoRoute)
    } else if word == b"unknown-stream".as_slice() {
        Some(Refusal::UnknownStream)
    } else if word == b"no-random".as_slice() {
        Some(Refusal::NoRandom)
    } else {
        None
    }
}

#[tactic(auto, unfolding(crate::specs::Refusals::journal_full_at))]
fn journal_full(rest: &[u8]) -> Option<Refusal>
    ensures { result ≡ journal_full_at (words_in rest.now) }
{
    let (length_word, need_word) = two(rest)?;
    let length = long(length_word)?;
    let need = long(need_word)?;
    Some(Refusal::JournalFull { length, need })
}

#[tactic(auto, unfolding(crate::specs::Refusals::wrong_lane_at))]
fn wrong_lane(rest: &[u8]) -> Option<Refusal>
    ensures { result ≡ wrong_lane_at (words_in rest.now) }
{
    let (link_word, way_word) = two(rest)?;
    let link = byte(link_word)?;
    let way = byte(way_word)?;
    Some(Refusal::WrongLane { link, way })
}

#[tactic(auto, unfolding(crate::specs::Refusals::bad_tag_at))]
fn bad_tag(rest: &[u8]) -> Option<Refusal>
    ensures { result ≡ bad_tag_at (words_in rest.now) }
{
    let (given_word, computed_word) = two(rest)?;
    let given = tag(given_word)?;
    let computed = tag(computed_word)?;
    Some(Refusal::BadTag { given, computed })
}

// A refusal of a frame, from its first word and the number behind it.
#[tactic(auto, unfolding(crate::specs::Refusals::of_frame_at))]
fn of_frame(word: &[u8], number_word: &[u8]) -> Option<Refusal>
    ensures { result ≡ of_frame_at word.now number_word.now }
{
    if word == b"no-frame".as_slice() {
        let count = long(number_word)?;
        Some(Refusal::NoFrame { count })
    } else if word == b"no-bits".as_slice() {
        let have = long(number_word)?;
        Some(Refusal::NoBits { have })
    } else if word == b"no-bit".as_slice() {
        let bits = number(number_word)?;
        Some(Refusal::NoBit { bits })
    } else if word == b"bad-frame".as_slice() {
        let place = number(number_word)?;
        Some(Refusal::BadFrame { place })
    } else {
        None
    }
}

// A refusal, from its first word and the number behind it.
#[tactic(auto, unfolding(crate::specs::Refusals::counted_at))]
fn counted(word: &[u8], number_word: &[u8]) -> Option<Refusal>
    ensures { result ≡ counted_at word.now number_word.now }
{
    if word == b"link-full".as_slice() {
        Some(Refusal::LinkFull)
    } else if word == b"pool-full".as_slice() {
        Some(Refusal::PoolFull)
    } else if word == b"few".as_slice() {
        let count = number(number_word)?;
        Some(Refusal::Few { count })
    } else if word == b"unknown".as_slice() {
        let place = short(number_word)?;
        Some(Refusal::Unknown { place })
    } else if word == b"repeated".as_slice() {
        let place = short(number_word)?;
        Some(Refusal::Repeated { place })
    } else if word == b"handed".as_slice() {
        let place = short(number_word)?;
        Some(Refusal::Handed { place })
    } else {
        of_frame(word, number_word)
    }
}

// A refusal that is several words.
#[tactic(auto, unfolding(crate::specs::Refusals::worded_at))]
fn worded(word: &[u8], rest: &[u8]) -> Option<Refusal>
    ensures { result ≡ worded_at word.now (words_in rest.now) }
{
    if word == b"journal-full".as_slice() {
        journal_full(rest)
    } else if word == b"wrong-lane".as_slice() {
        wrong_lane(rest)
    } else if word == b"bad-tag".as_slice() {
        bad_tag(rest)
    } else {
        let number_word = one(rest)?;
        counted(word, number_word)
    }
}

/// The refusal that has this text, if there is one.
#[tactic(auto, unfolding(crate::specs::Refusals::refusal_at))]
pub fn refusal(text: &[u8]) -> Option<Refusal>
    ensures { result ≡ refusal_at (words_in text.now) }
{
    let (first, rest) = word(text)?;
    if is_over(rest) {
        bare(first)
    } else {
        worded(first, rest)
    }
}

#[tactic(auto, unfolding(crate::specs::Refusals::taken_at))]
fn taken(rest: &[u8]) -> Option<FrameResult>
    ensures { result ≡ taken_at (words_in rest.now) }
{
    let (kind_word, name_word) = two(rest)?;
    let kind = kind(kind_word)?;
    let name = name(name_word)?;
    Some(FrameResult::Taken { kind, name })
}

#[tactic(auto, unfolding(crate::specs::Refusals::again_at))]
fn again(rest: &[u8]) -> Option<FrameResult>
    ensures { result ≡ again_at (words_in rest.now) }
{
    let (kind_word, name_word) = two(rest)?;
    let kind = kind(kind_word)?;
    let name = name(name_word)?;
    Some(FrameResult::Again { kind, name })
}

/// The result of a frame that has this text, if there is one.
#[tactic(auto, unfolding(crate::specs::Refusals::result_at))]
pub fn frame_result(text: &[u8]) -> Option<FrameResult>
    ensures { result ≡ result_at (words_in text.now) }
{
    let (first, rest) = word(text)?;
    if first == b"taken".as_slice() {
        taken(rest)
    } else if first == b"again".as_slice() {
        again(rest)
    } else {
        let refusal = refusal(text)?;
        Some(FrameResult::Refused(refusal))
    }
}
