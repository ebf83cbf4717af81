// How many leading octets of a word fit a part of a row: the most that it shares with a text of the part.
ghost use Rattle.std.specs.Prelude.{◌≡◌, ◌==◌, ◌&&◌};
ghost use Rattle.report_parser.specs.Runs.{common};
ghost use Rattle.report_parser.specs.Fits.{name_fit, node_fit, fit, is_decimal, is_octets, is_text};

use crate::part::Part;
use crate::runs::{common, decimal_fit, figures_fit, greatest, pattern_fit};
use qkd_base::Texts;
use report_grammar::fields::{cause, end, kind, name, node, state, up, way};

// How many leading octets of a word fit a key's name. A name's count is at least 1.
#[tactic(auto, unfolding(crate::specs::Fits::name_fit))]
fn name_fit(word: &[u8]) -> usize
    ensures { result ≡ name_fit word.now }
{
    let fit = pattern_fit(b"00000000-0000-800n-800k-nnnnnnnnnnnn", word);
    if fit == 36 && &word[24..36] == b"000000000000".as_slice() {
        // If all digits of the count are zeros, the last one fits no name.
        35
    } else {
        fit
    }
}

// How many leading octets of a word fit the name of a declared node.
#[tactic(auto, unfolding(crate::specs::Fits::node_fit))]
fn node_fit(nodes: &Texts, word: &[u8]) -> usize
    ensures { result ≡ node_fit nodes.now word.now }
{
    let mut most = 0;
    for name in nodes.as_slice() {
        most = most.max(common(name.as_str().as_bytes(), word));
    }
    most
}

/// How many leading octets of a word fit a part.
#[tactic(auto, unfolding(crate::specs::Fits::fit))]
pub fn fit(nodes: &Texts, part: Part, word: &[u8]) -> usize
    ensures { result ≡ fit nodes.now part word.now }
{
    match part {
        Part::Link => decimal_fit(31, word),
        Part::Byte => decimal_fit(255, word),
        Part::Short => decimal_fit(65535, word),
        Part::Number => decimal_fit(4294967295, word),
        Part::Long => decimal_fit(18446744073709551615, word),
        Part::Way | Part::Up => greatest(&[common(b"up", word), common(b"down", word)]),
        Part::End => greatest(&[common(b"low", word), common(b"high", word)]),
        Part::Kind => greatest(&[
            common(b"key", word),
            common(b"stored", word),
            common(b"ack", word),
            common(b"open", word),
            common(b"joined", word),
            common(b"chunk", word),
            common(b"part", word),
        ]),
        Part::State => greatest(&[
            common(b"given", word),
            common(b"ready", word),
            common(b"made", word),
            common(b"kept", word),
            common(b"relayed", word),
        ]),
        Part::Cause => greatest(&[common(b"wire-fault", word), common(b"memory", word)]),
        Part::Node => node_fit(nodes, word),
        Part::Name => name_fit(word),
        Part::Tag => figures_fit(word).min(16),
        Part::Octets => figures_fit(word),
        Part::Bytes => greatest(&[common(b"-", word), figures_fit(word)]),
        Part::Absent => common(b"absent", word),
        Part::New => common(b"new", word),
        Part::Again => common(b"again", word),
        Part::Received => common(b"received", word),
        Part::Unused => common(b"unused", word),
        Part::Spent => common(b"spent", word),
        Part::Burnt => common(b"burnt", word),
    }
}

// Whether a word is a decimal number that is at most `most`.
fn is_decimal(most: u64, word: &[u8]) -> bool
    ensures { result ≡ is_decimal most word.now }
{
    !word.is_empty() && decimal_fit(most, word) == word.len()
}

// Whether a word is octets in lower-case hexadecimal.
fn is_octets(word: &[u8]) -> bool
    ensures { result ≡ is_octets word.now }
{
    word.len() % 2 == 0 && figures_fit(word) == word.len()
}

/// Whether a word is a text of a part.
#[tactic(auto, unfolding(crate::specs::Fits::is_text))]
pub fn is_text(nodes: &Texts, part: Part, word: &[u8]) -> bool
    ensures { result ≡ is_text nodes.now part word.now }
{
    match part {
        Part::Link => is_decimal(31, word),
        Part::Byte => is_decimal(255, word),
        Part::Short => is_decimal(65535, word),
        Part::Number => is_decimal(4294967295, word),
        Part::Long => is_decimal(18446744073709551615, word),
        Part::Way => way(word).is_some(),
        Part::Up => up(word).is_some(),
        Part::End => end(word).is_some(),
        Part::Kind => kind(word).is_some(),
        Part::State => word != b"absent".as_slice() && state(word).is_some(),
        Part::Cause => cause(word).is_some(),
        Part::Node => node(nodes, word).is_some(),
        Part::Name => name(word).is_some(),
        Part::Tag => word.len() == 16 && is_octets(word),
        Part::Octets => is_octets(word),
        Part::Bytes => word == b"-".as_slice() || (!word.is_empty() && is_octets(word)),
        Part::Absent => word == b"absent".as_slice(),
        Part::New => word == b"new".as_slice(),
        Part::Again => word == b"again".as_slice(),
        Part::Received => word == b"received".as_slice(),
        Part::Unused => word == b"unused".as_slice(),
        Part::Spent => word == b"spent".as_slice(),
        Part::Burnt => word == b"burnt".as_slice(),
    }
}
