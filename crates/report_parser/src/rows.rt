// All rows of a report, and how many leading octets of a text fit each.
ghost use Rattle.std.specs.Prelude.{◌≡◌, ◌≤◌, length, [], ◌∷◌};
ghost use lib.Chars.{codes};
ghost use Rattle.report_parser.specs.declared.part.Part.TheVariants as parts;
ghost use Rattle.report_parser.specs.Runs.{end_reach};
ghost use Rattle.report_parser.specs.Rows.{keys_from, keys_reach, body_reach, ledger_parts, link_rows, lane_rows, key_rows, node_rows, state_rows, item_reach};
ghost use Rattle.report_parser.specs.Walk.{row_reach};

use crate::part::Part;
use crate::refusal_rows::{refusal_reach, refused_row, result_row};
use crate::runs::end_reach;
use crate::walk::{farthest, parts, row, whole_row};
use qkd_base::Texts;

// The reach of keys, each a name and its octets, and of the end of the line.
#[tactic(auto, unfolding(crate::specs::Rows::keys_reach))]
fn keys_reach(nodes: &Texts, text: &[u8]) -> usize
    ensures reach { result ≡ keys_reach nodes.now text.now }
    ensures within { result ≤ length text.now }
{
    let mut at = 0;
    for _ in 0..text.len() {
        let rest = &text[at..];
        if end_reach(rest) == 1 {
            return at + 1;
        }
        let reach = parts(nodes, &[Part::Name, Part::Octets], rest);
        at += reach.octets;
        if !reach.whole {
            return at;
        }
    }
    at + end_reach(&text[at..])
}

// `keys NAME HEX NAME HEX ..`
fn keys_row(nodes: &Texts, text: &[u8]) -> usize
    ensures reach { result ≡ row_reach nodes.now (codes " keys") [] (keys_reach nodes.now) text.now }
    ensures within { result ≤ length text.now }
{
    let reach = row(nodes, b" keys", &[], text);
    if reach.whole {
        reach.octets + keys_reach(nodes, &text[reach.octets..])
    } else {
        reach.octets
    }
}

// The reach of a space and any text behind it.
fn body_reach(text: &[u8]) -> usize
    ensures reach { result ≡ body_reach text.now }
    ensures within { result ≤ length text.now }
{
    match text {
        [b' ', ..] => text.len(),
        _ => 0,
    }
}

// `http NAME STATUS BODY`
fn http_row(nodes: &Texts, text: &[u8]) -> usize
    ensures reach { result ≡ row_reach nodes.now (codes " http") (parts.Node ∷ parts.Short ∷ []) body_reach text.now }
    ensures within { result ≤ length text.now }
{
    let reach = row(nodes, b" http", &[Part::Node, Part::Short], text);
    if reach.whole {
        reach.octets + body_reach(&text[reach.octets..])
    } else {
        reach.octets
    }
}

#[tactic(auto, unfolding(crate::specs::Rows::link_rows))]
fn link_rows(nodes: &Texts, text: &[u8]) -> usize
    ensures reach { result ≡ link_rows nodes.now text.now }
    ensures within { result ≤ length text.now }
{
    farthest(
        text,
        &[
            whole_row(
                nodes,
                b" bits",
                &[Part::Link, Part::End, Part::Number],
                text,
            ),
            refused_row(nodes, b" bits", &[Part::Link, Part::End], text),
            whole_row(nodes, b" link", &[Part::Link, Part::Up], text),
        ],
    )
}

#[tactic(auto, unfolding(crate::specs::Rows::lane_rows))]
fn lane_rows(nodes: &Texts, text: &[u8]) -> usize
    ensures reach { result ≡ lane_rows nodes.now text.now }
    ensures within { result ≤ length text.now }
{
    farthest(
        text,
        &[
            whole_row(
                nodes,
                b" short",
                &[Part::Link, Part::Way, Part::Long, Part::Long, Part::Long],
                text,
            ),
            whole_row(
                nodes,
                b" sent",
                &[Part::Link, Part::Way, Part::Long, Part::Long, Part::Short],
                text,
            ),
            whole_row(
                nodes,
                b" unsent",
                &[Part::Link, Part::Way, Part::Long, Part::Cause],
                text,
            ),
            result_row(
                nodes,
                b" pass",
                &[Part::Link, Part::Way, Part::Number],
                text,
            ),
            result_row(
                nodes,
                b" flip",
                &[Part::Link, Part::Way, Part::Number, Part::Number],
                text,
            ),
            result_row(nodes, b" forge", &[Part::Link, Part::Way], text),
            ledger_row(nodes, text),
            refused_row(nodes, b" ledger", &[Part::Link, Part::Way], text),
        ],
    )
}

// `ledger LINK WAY received R unused U spent S burnt B`
fn ledger_row(nodes: &Texts, text: &[u8]) -> usize
    ensures reach { result ≡ row_reach nodes.now (codes " ledger") ledger_parts end_reach text.now }
    ensures within { result ≤ length text.now }
{
    whole_row(
        nodes,
        b" ledger",
        &[
            Part::Link,
            Part::Way,
            Part::Received,
            Part::Long,
            Part::Unused,
            Part::Long,
            Part::Spent,
            Part::Long,
            Part::Burnt,
            Part::Long,
        ],
        text,
    )
}

#[tactic(auto, unfolding(crate::specs::Rows::key_rows))]
fn key_rows(nodes: &Texts, text: &[u8]) -> usize
    ensures reach { result ≡ key_rows nodes.now text.now }
    ensures within { result ≤ length text.now }
{
    farthest(
        text,
        &[
            whole_row(nodes, b" made", &[Part::Short, Part::Name], text),
            keys_row(nodes, text),
            whole_row(nodes, b" status", &[Part::Number], text),
            whole_row(nodes, b" OPEN_CONNECT", &[Part::Byte], text),
            whole_row(nodes, b" OPEN_CONNECT", &[Part::Byte, Part::Name], text),
            whole_row(nodes, b" GET_KEY", &[Part::Byte], text),
            whole_row(
                nodes,
                b" GET_KEY",
                &[Part::Byte, Part::Number, Part::Octets],
                text,
            ),
            whole_row(nodes, b" CLOSE", &[Part::Byte], text),
        ],
    )
}

// The reach of the rows with the name of a node. Without a declared node it is 0.
#[tactic(auto, unfolding(crate::specs::Rows::node_rows))]
fn node_rows(nodes: &Texts, text: &[u8]) -> usize
    ensures reach { result ≡ node_rows nodes.now text.now }
    ensures within { result ≤ length text.now }
{
    if nodes.is_empty() {
        return 0;
    }
    farthest(
        text,
        &[
            whole_row(
                nodes,
                b" tick",
                &[
                    Part::Node,
                    Part::New,
                    Part::Number,
                    Part::Again,
                    Part::Number,
                ],
                text,
            ),
            refused_row(nodes, b" tick", &[Part::Node], text),
            whole_row(nodes, b" idle", &[Part::Node], text),
            http_row(nodes, text),
            whole_row(
                nodes,
                b" show",
                &[Part::Node, Part::Name, Part::Absent],
                text,
            ),
            whole_row(
                nodes,
                b" show",
                &[Part::Node, Part::Name, Part::State, Part::Bytes],
                text,
            ),
            refused_row(nodes, b" show", &[Part::Node, Part::Name], text),
        ],
    )
}

#[tactic(auto, unfolding(crate::specs::Rows::state_rows))]
fn state_rows(nodes: &Texts, text: &[u8]) -> usize
    ensures reach { result ≡ state_rows nodes.now text.now }
    ensures within { result ≤ length text.now }
{
    farthest(
        text,
        &[
            whole_row(nodes, b" crashed", &[], text),
            whole_row(nodes, b" started", &[], text),
            whole_row(nodes, b" up", &[], text),
            whole_row(nodes, b" foreign", &[Part::Long], text),
            whole_row(nodes, b" armed", &[], text),
            refusal_reach(nodes, text),
        ],
    )
}

/// How many leading octets of a text fit an item, with a space before it and the end of the line behind it.
#[tactic(auto, unfolding(crate::specs::Rows::item_reach))]
pub fn item_reach(nodes: &Texts, text: &[u8]) -> usize
    ensures reach { result ≡ item_reach nodes.now text.now }
    ensures within { result ≤ length text.now }
{
    farthest(
        text,
        &[
            link_rows(nodes, text),
            lane_rows(nodes, text),
            key_rows(nodes, text),
            node_rows(nodes, text),
            state_rows(nodes, text),
        ],
    )
}
