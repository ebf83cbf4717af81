// How many leading octets of a text fit a row, part by part.
ghost use Rattle.std.specs.Prelude.{◌≡◌, ◌≤◌, ℕ, List, length};
ghost use Rattle.report_parser.specs.Runs.{end_reach};
ghost use Rattle.report_parser.specs.Walk.{part_reach, space_reach, parts_reach, row_reach, go_on, farthest};

use crate::fits::{fit, is_text};
use crate::part::{Part, Reach};
use crate::runs::{common, end_reach, greatest, plain_len};
use qkd_base::Texts;

/// How many leading octets of a text fit a part.
#[tactic(auto, unfolding(crate::specs::Walk::part_reach))]
pub fn part(nodes: &Texts, part: Part, text: &[u8]) -> Reach
    ensures reach { (behind : List ℕ → ℕ) → part_reach nodes.now part behind text.now ≡ go_on result behind text.now }
    ensures within { result.octets ≤ length text.now }
{
    let size = plain_len(text);
    let word = &text[..size];
    if is_text(nodes, part, word) {
        Reach {
            octets: size,
            whole: true,
        }
    } else {
        Reach {
            octets: fit(nodes, part, word).min(size),
            whole: false,
        }
    }
}

// How many leading octets of a text fit a space and a part.
fn spaced_part(nodes: &Texts, of: Part, text: &[u8]) -> Reach
    ensures reach { (behind : List ℕ → ℕ) → space_reach (part_reach nodes.now of behind) text.now ≡ go_on result behind text.now }
    ensures within { result.octets ≤ length text.now }
{
    match text {
        [b' ', rest @ ..] => {
            let reach = part(nodes, of, rest);
            Reach {
                octets: 1 + reach.octets,
                whole: reach.whole,
            }
        }
        _ => Reach {
            octets: 0,
            whole: false,
        },
    }
}

/// How many leading octets of a text fit parts, each with a space before it.
pub fn parts(nodes: &Texts, parts: &[Part], text: &[u8]) -> Reach
    ensures reach { (behind : List ℕ → ℕ) → parts_reach nodes.now parts.now behind text.now ≡ go_on result behind text.now }
    ensures within { result.octets ≤ length text.now }
{
    let mut at = 0;
    for part in parts {
        let reach = spaced_part(nodes, *part, &text[at..]);
        at += reach.octets;
        if !reach.whole {
            return Reach {
                octets: at,
                whole: false,
            };
        }
    }
    Reach {
        octets: at,
        whole: true,
    }
}

/// How many leading octets of a text fit the octets `start`, and parts behind them.
#[tactic(auto, unfolding(crate::specs::Walk::row_reach))]
pub fn row(nodes: &Texts, start: &[u8], of: &[Part], text: &[u8]) -> Reach
    ensures reach { (behind : List ℕ → ℕ) → row_reach nodes.now start.now of.now behind text.now ≡ go_on result behind text.now }
    ensures within { result.octets ≤ length text.now }
{
    let same = common(start, text);
    if same < start.len() {
        return Reach {
            octets: same,
            whole: false,
        };
    }
    let reach = parts(nodes, of, &text[same..]);
    Reach {
        octets: same + reach.octets,
        whole: reach.whole,
    }
}

/// How many leading octets of a text fit the octets `start`, parts behind them, and the end of the line.
pub fn whole_row(nodes: &Texts, start: &[u8], of: &[Part], text: &[u8]) -> usize
    ensures reach { result ≡ row_reach nodes.now start.now of.now end_reach text.now }
    ensures within { result ≤ length text.now }
{
    let reach = row(nodes, start, of, text);
    if reach.whole {
        reach.octets + end_reach(&text[reach.octets..])
    } else {
        reach.octets
    }
}

/// The greatest of several rows' reaches, at most the text's length.
pub fn farthest(text: &[u8], reaches: &[usize]) -> usize
    ensures reach { result ≡ farthest text.now reaches.now }
    ensures within { result ≤ length text.now }
{
    greatest(reaches).min(text.len())
}
