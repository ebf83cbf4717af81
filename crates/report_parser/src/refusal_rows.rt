// The rows of refusals, and of the results of frames.
ghost use Rattle.std.specs.Prelude.{◌≡◌, ◌≤◌, length};
ghost use Rattle.report_parser.specs.Rows.{bare_reach, counted_reach, refusal_reach, result_reach};
ghost use Rattle.report_parser.specs.Walk.{row_reach};

use crate::part::Part;
use crate::walk::{farthest, row, whole_row};
use qkd_base::Texts;

// The reach of the refusals without a number.
#[tactic(auto, unfolding(crate::specs::Rows::bare_reach))]
fn bare_reach(nodes: &Texts, text: &[u8]) -> usize
    ensures reach { result ≡ bare_reach nodes.now text.now }
    ensures within { result ≤ length text.now }
{
    farthest(
        text,
        &[
            whole_row(nodes, b" down", &[], text),
            whole_row(nodes, b" stopped", &[], text),
            whole_row(nodes, b" memory", &[], text),
            whole_row(nodes, b" link-full 1024", &[], text),
            whole_row(nodes, b" no-bits", &[], text),
            whole_row(nodes, b" device-fault", &[], text),
            whole_row(nodes, b" not-allowed", &[], text),
            whole_row(nodes, b" no-route", &[], text),
            whole_row(nodes, b" pool-full 4096", &[], text),
            whole_row(nodes, b" unknown-stream", &[], text),
            whole_row(nodes, b" no-random", &[], text),
        ],
    )
}

// The reach of the refusals with numbers.
#[tactic(auto, unfolding(crate::specs::Rows::counted_reach))]
fn counted_reach(nodes: &Texts, text: &[u8]) -> usize
    ensures reach { result ≡ counted_reach nodes.now text.now }
    ensures within { result ≤ length text.now }
{
    farthest(
        text,
        &[
            whole_row(nodes, b" journal-full", &[Part::Long, Part::Long], text),
            whole_row(nodes, b" no-frame", &[Part::Long], text),
            whole_row(nodes, b" no-bit", &[Part::Number], text),
            whole_row(nodes, b" bad-frame", &[Part::Number], text),
            whole_row(nodes, b" wrong-lane", &[Part::Byte, Part::Byte], text),
            whole_row(nodes, b" no-bits", &[Part::Long], text),
            whole_row(nodes, b" bad-tag", &[Part::Tag, Part::Tag], text),
            whole_row(nodes, b" few", &[Part::Number], text),
            whole_row(nodes, b" unknown", &[Part::Short], text),
            whole_row(nodes, b" repeated", &[Part::Short], text),
            whole_row(nodes, b" handed", &[Part::Short], text),
        ],
    )
}

/// How many leading octets of a text fit a refusal and the end of the line.
#[tactic(auto, unfolding(crate::specs::Rows::refusal_reach))]
pub fn refusal_reach(nodes: &Texts, text: &[u8]) -> usize
    ensures reach { result ≡ refusal_reach nodes.now text.now }
    ensures within { result ≤ length text.now }
{
    farthest(text, &[bare_reach(nodes, text), counted_reach(nodes, text)])
}

/// How many leading octets of a text fit the result of a frame, and the end of the line.
#[tactic(auto, unfolding(crate::specs::Rows::result_reach))]
pub fn result_reach(nodes: &Texts, text: &[u8]) -> usize
    ensures reach { result ≡ result_reach nodes.now text.now }
    ensures within { result ≤ length text.now }
{
    farthest(
        text,
        &[
            whole_row(nodes, b" taken", &[Part::Kind, Part::Name], text),
            whole_row(nodes, b" again", &[Part::Kind, Part::Name], text),
            refusal_reach(nodes, text),
        ],
    )
}

/// How many leading octets of a text fit the octets `start`, parts behind them, and a refusal.
pub fn refused_row(nodes: &Texts, start: &[u8], parts: &[Part], text: &[u8]) -> usize
    ensures reach { result ≡ row_reach nodes.now start.now parts.now (refusal_reach nodes.now) text.now }
    ensures within { result ≤ length text.now }
{
    let reach = row(nodes, start, parts, text);
    if reach.whole {
        reach.octets + refusal_reach(nodes, &text[reach.octets..])
    } else {
        reach.octets
    }
}

/// How many leading octets of a text fit the octets `start`, parts behind them, and the result of a frame.
pub fn result_row(nodes: &Texts, start: &[u8], parts: &[Part], text: &[u8]) -> usize
    ensures reach { result ≡ row_reach nodes.now start.now parts.now (result_reach nodes.now) text.now }
    ensures within { result ≤ length text.now }
{
    let reach = row(nodes, start, parts, text);
    if reach.whole {
        reach.octets + result_reach(nodes, &text[reach.octets..])
    } else {
        reach.octets
    }
}
