// The reading of a whole scenario.
ghost use Rattle.std.specs.Prelude.{◌≡◌, ◌+◌, ◌≤◌, [], ◌∷◌, length, Ok, MatchOption, MatchResult, OnOk};
ghost use Rattle.std.specs.Str.Lines.{strip_carriage_return};
ghost use Rattle.scenario_text.specs.Line.{line_at};
ghost use Rattle.scenario_text.specs.Text.{parts_of, Takes, within, meaning_of, Refuses, refusal_of};

use crate::reading::Reading;
use crate::refusal::{LineRefusal, ScenarioRefusal};
use crate::words::len_to;
use run_types::Scenario;
use std::alloc::Global;

/// The greatest number of octets of a scenario.
pub const TEXT_LIMIT: usize = 4194304;

/// The greatest number of octets of a line, its end not counted.
pub const LINE_LIMIT: usize = 150000;

/// The first line without its line feed, and the text after it. `None` if the text has no line feed.
pub fn split_line(rest: &[u8]) -> Option<(&[u8], &[u8])>
    ensures { MatchOption result (parts_of rest.now ≡ rest.now ∷ []) (λ x. (parts_of rest.now ≡ x.0.now ∷ parts_of x.1.now) × (length x.0.now + length x.1.now + 1 ≡ length rest.now)) }
{
    let len = len_to(b'\n', rest);
    if len < rest.len() {
        Some((&rest[..len], &rest[len + 1..]))
    } else {
        None
    }
}

/// The line without one carriage return at its end, if it has one.
pub fn without_return(line: &[u8]) -> &[u8]
    ensures { result.now ≡ strip_carriage_return line.now }
{
    match line {
        [front @ .., b'\r'] => front,
        _ => line,
    }
}

// Reads one line, which has `all` octets with its end. The answer is whether it was the last line.
#[tactic(auto, unfolding(crate::specs::Text::within))]
fn take_line(
    alloc: Global,
    reading: &mut Reading,
    left: usize,
    number: u32,
    all: usize,
    line: &[u8],
) -> Result<bool, LineRefusal>
    ensures takes { Takes (within left all (length line.now) (line_at reading.old number line.now)) reading.old reading.new result }
    ensures room { OnOk result (all ≤ left) }
{
    if left < all || LINE_LIMIT < line.len() {
        return Err(LineRefusal::Refused);
    }
    reading.take(alloc, number, line)
}

// The refusal of a scenario, from that of its line.
fn refused(number: u32, refusal: LineRefusal) -> ScenarioRefusal
    ensures { result ≡ refusal_of number refusal }
{
    match refusal {
        LineRefusal::Refused => ScenarioRefusal::BadLine(number),
        LineRefusal::Memory => ScenarioRefusal::Memory,
    }
}

/// The scenario of a text, or the first line that the grammar refuses. If a text is too long, the line of the first
/// octet past the limit is refused.
pub fn read_scenario(alloc: Global, bytes: &[u8]) -> Result<Scenario, ScenarioRefusal>
    ensures { MatchResult result (λ s. meaning_of bytes.now ≡ Ok s) (λ e. Refuses e (meaning_of bytes.now)) }
{
    if bytes.len() > TEXT_LIMIT + 1 {
        read_parts(alloc, &bytes[..TEXT_LIMIT + 1])
    } else {
        read_parts(alloc, bytes)
    }
}

// The scenario of a text that is at most one octet longer than the limit.
fn read_parts(alloc: Global, bytes: &[u8]) -> Result<Scenario, ScenarioRefusal>
    requires { length bytes.now ≤ TEXT_LIMIT + 1 }
    ensures { MatchResult result (λ s. meaning_of bytes.now ≡ Ok s) (λ e. Refuses e (meaning_of bytes.now)) }
{
    let mut reading = Reading::new(alloc);
    let mut rest = bytes;
    let mut left = TEXT_LIMIT;
    let mut number = 1u32;
    while let Some((line, behind)) = split_line(rest) {
        let own = without_return(line);
        match take_line(alloc, &mut reading, left, number, line.len() + 1, own) {
            Err(refusal) => return Err(refused(number, refusal)),
            Ok(true) => {
                return if behind.is_empty() {
                    Ok(reading.into_scenario())
                } else {
                    Err(ScenarioRefusal::BadLine(number + 1))
                };
            }
            Ok(false) => {}
        }
        left -= line.len() + 1;
        number += 1;
        rest = behind;
    }
    match take_line(alloc, &mut reading, left, number, rest.len(), rest) {
        Err(refusal) => Err(refused(number, refusal)),
        Ok(true) => Ok(reading.into_scenario()),
        Ok(false) => Err(ScenarioRefusal::BadLine(number)),
    }
}
