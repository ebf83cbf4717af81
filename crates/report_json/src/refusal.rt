// What refusals, results of frames and answers to starts tell.
ghost use Rattle.std.specs.Prelude.{◌≡◌, ◌∷◌, [], map, IfOk, OnOk};
ghost use lib.Chars.{codes};
ghost use Rattle.serde_json.specs.Data.{string};
ghost use Rattle.serde_json.specs.View.{view};
ghost use Rattle.run_types.specs.Words.{kind_text, tag_text};
ghost use Rattle.report_json.specs.Words.{says, count_of, refusal_word, refusal_numbers, refusal_fields};
ghost use Rattle.report_json.specs.Members.{members_in};
ghost use Rattle.report_json.specs.Objects.{put_all, of_name, result_fields, start_fields};

use crate::object::Object;
use crate::words::kind_text;
use qkd_base::{KeyName, Memory};
use run_types::{FrameResult, PayloadKind, Refusal, StartResult};
use serde_json::Value;
use std::alloc::Global;

// The word of a refusal.
#[tactic(auto, unfolding(crate::specs::Words::refusal_word))]
fn refusal_word(refusal: Refusal) -> &'static str
    ensures { result.now ≡ refusal_word refusal }
{
    match refusal {
        Refusal::Down => "down",
        Refusal::Stopped => "stopped",
        Refusal::Memory => "memory",
        Refusal::LinkFull => "link-full",
        Refusal::NoBlock | Refusal::NoBits { .. } => "no-bits",
        Refusal::DeviceFault => "device-fault",
        Refusal::NotAllowed => "not-allowed",
        Refusal::NoRoute => "no-route",
        Refusal::PoolFull => "pool-full",
        Refusal::UnknownStream => "unknown-stream",
        Refusal::JournalFull { .. } => "journal-full",
        Refusal::NoRandom => "no-random",
        Refusal::NoFrame { .. } => "no-frame",
        Refusal::NoBit { .. } => "no-bit",
        Refusal::BadFrame { .. } => "bad-frame",
        Refusal::WrongLane { .. } => "wrong-lane",
        Refusal::BadTag { .. } => "bad-tag",
        Refusal::Few { .. } => "few",
        Refusal::Unknown { .. } => "unknown",
        Refusal::Repeated { .. } => "repeated",
        Refusal::Handed { .. } => "handed",
    }
}

// One value.
fn one(alloc: Global, value: Value) -> Result<Vec<Value>, Memory>
    ensures { IfOk result (λ values. map view values.items ≡ view value ∷ []) }
{
    let mut values = Vec::with_capacity(alloc, 2)?;
    values.push(value)?;
    Ok(values)
}

// Two values.
fn two(alloc: Global, first: Value, second: Value) -> Result<Vec<Value>, Memory>
    ensures { IfOk result (λ values. map view values.items ≡ view first ∷ view second ∷ []) }
{
    let mut values = one(alloc, first)?;
    values.push(second)?;
    Ok(values)
}

// One number.
fn count(alloc: Global, count: u64) -> Result<Vec<Value>, Memory>
    ensures { IfOk result (λ values. map view values.items ≡ count_of count ∷ []) }
{
    one(alloc, Value::from(count))
}

// Two numbers.
fn counts(alloc: Global, first: u64, second: u64) -> Result<Vec<Value>, Memory>
    ensures { IfOk result (λ values. map view values.items ≡ count_of first ∷ count_of second ∷ []) }
{
    two(alloc, Value::from(first), Value::from(second))
}

// A tag in 16 hexadecimal digits.
fn tag(alloc: Global, tag: u64) -> Result<Value, Memory>
    ensures { IfOk result (λ value. view value ≡ string (tag_text tag)) }
{
    let digits = hex::encode(alloc, &tag.to_be_bytes())?;
    Ok(Value::String(digits))
}

// What a refusal tells beside its word.
#[tactic(auto, unfolding(crate::specs::Words::refusal_numbers))]
fn refusal_numbers(alloc: Global, refusal: Refusal) -> Result<Vec<Value>, Memory>
    ensures { IfOk result (λ values. map view values.items ≡ refusal_numbers refusal) }
{
    match refusal {
        Refusal::LinkFull => count(alloc, 1024),
        Refusal::PoolFull => count(alloc, 4096),
        Refusal::JournalFull { length, need } => counts(alloc, length, need),
        Refusal::NoFrame { count: frames } => count(alloc, frames),
        Refusal::NoBit { bits } => count(alloc, u64::from(bits)),
        Refusal::BadFrame { place } => count(alloc, u64::from(place)),
        Refusal::WrongLane { link, way } => counts(alloc, u64::from(link), u64::from(way)),
        Refusal::NoBits { have } => count(alloc, have),
        Refusal::BadTag { given, computed } => {
            let given = tag(alloc, given)?;
            let computed = tag(alloc, computed)?;
            two(alloc, given, computed)
        }
        Refusal::Few { count: ready } => count(alloc, u64::from(ready)),
        Refusal::Unknown { place } | Refusal::Repeated { place } | Refusal::Handed { place } => {
            count(alloc, u64::from(place))
        }
        Refusal::Down
        | Refusal::Stopped
        | Refusal::Memory
        | Refusal::NoBlock
        | Refusal::DeviceFault
        | Refusal::NotAllowed
        | Refusal::NoRoute
        | Refusal::UnknownStream
        | Refusal::NoRandom => Ok(Vec::new(alloc)),
    }
}

/// Adds a refusal: its word, and its numbers.
pub(crate) fn refusal(object: &mut Object, refusal: Refusal) -> Result<(), Memory>
    ensures { OnOk result (members_in object.new ≡ put_all (members_in object.old) (refusal_fields refusal)) }
{
    object.says("refusal", refusal_word(refusal))?;
    let numbers = refusal_numbers(object.alloc, refusal)?;
    object.has("numbers", Value::Array(numbers))
}

// Adds that a frame was understood, and what it told.
fn heard(object: &mut Object, word: &str, kind: PayloadKind, name: KeyName) -> Result<(), Memory>
    ensures { OnOk result (members_in object.new ≡ put_all (members_in object.old) (says (codes "result") word.now ∷ says (codes "fact") (kind_text kind) ∷ of_name name ∷ [])) }
{
    object.says("result", word)?;
    object.says("fact", kind_text(kind))?;
    object.of_name(name)
}

/// Adds what became of a frame at its receiver.
pub(crate) fn frame_result(object: &mut Object, came: FrameResult) -> Result<(), Memory>
    ensures { OnOk result (members_in object.new ≡ put_all (members_in object.old) (result_fields came)) }
{
    match came {
        FrameResult::Taken { kind, name } => heard(object, "taken", kind, name),
        FrameResult::Again { kind, name } => heard(object, "again", kind, name),
        FrameResult::Refused(why) => refusal(object, why),
    }
}

/// Adds the answer to a start.
pub(crate) fn start_result(object: &mut Object, answer: StartResult) -> Result<(), Memory>
    ensures { OnOk result (members_in object.new ≡ put_all (members_in object.old) (start_fields answer)) }
{
    match answer {
        StartResult::Started => object.is_a("started"),
        StartResult::WasUp => object.is_a("up"),
        StartResult::Stopped => object.is_a("stopped"),
        StartResult::Foreign { place } => {
            object.is_a("foreign")?;
            object.counts("place", place)
        }
        StartResult::Memory => object.is_a("memory"),
    }
}
