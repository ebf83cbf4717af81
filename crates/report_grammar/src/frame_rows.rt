// The rows of links, ticks, frames and lanes. Each call reads the text behind the words that its caller has read.
ghost use Rattle.std.specs.Prelude.{◌≡◌};
ghost use Rattle.report_grammar.specs.Words.{words_in};
ghost use Rattle.report_grammar.specs.Rows.{took_at, bits_at, ticked_at, not_ticked_at, tick_at, idle_at, short_at, sent_at, unsent_at, passed_at, flipped_at, forged_at, link_set_at, counted_at, ledger_at};

use crate::fields::{cause, end, link, long, node, short as short_number, up};
use crate::refusals::{frame_result, refusal};
use crate::words::{one, three, two, word};
use net_model::Counts4;
use qkd_base::{Lane, LinkNo, NodeNo, Texts};
use run_types::{End, Item};
use scenario_text::words::number;

#[tactic(auto, unfolding(crate::specs::Rows::took_at))]
fn took(link: LinkNo, end: End, text: &[u8]) -> Option<Item>
    ensures { result ≡ took_at link end (words_in text.now) }
{
    let (first, _) = word(text)?;
    match number(first) {
        Some(number) => Some(Item::Took { link, end, number }),
        None => {
            let refusal = refusal(text)?;
            Some(Item::TookNone { link, end, refusal })
        }
    }
}

/// `bits LINK END NUMBER` or `bits LINK END REFUSAL`
#[tactic(auto, unfolding(crate::specs::Rows::bits_at))]
pub fn bits(rest: &[u8]) -> Option<Item>
    ensures { result ≡ bits_at (words_in rest.now) }
{
    let (link_word, rest) = word(rest)?;
    let (end_word, rest) = word(rest)?;
    let link = link(link_word)?;
    let end = end(end_word)?;
    took(link, end, rest)
}

#[tactic(auto, unfolding(crate::specs::Rows::ticked_at))]
fn ticked(node: NodeNo, rest: &[u8]) -> Option<Item>
    ensures { result ≡ ticked_at node (words_in rest.now) }
{
    let (fresh_word, _, again_word) = three(rest)?;
    let fresh = number(fresh_word)?;
    let again = number(again_word)?;
    Some(Item::Ticked { node, fresh, again })
}

#[tactic(auto, unfolding(crate::specs::Rows::not_ticked_at))]
fn not_ticked(node: NodeNo, text: &[u8]) -> Option<Item>
    ensures { result ≡ not_ticked_at node (words_in text.now) }
{
    let refusal = refusal(text)?;
    Some(Item::NotTicked { node, refusal })
}

/// `tick NAME new A again B` or `tick NAME REFUSAL`
#[tactic(auto, unfolding(crate::specs::Rows::tick_at))]
pub fn tick(nodes: &Texts, rest: &[u8]) -> Option<Item>
    ensures { result ≡ tick_at nodes.now (words_in rest.now) }
{
    let (node_word, rest) = word(rest)?;
    let node = node(nodes, node_word)?;
    let (first, others) = word(rest)?;
    if first == b"new".as_slice() {
        ticked(node, others)
    } else {
        not_ticked(node, rest)
    }
}

/// `idle NAME`
#[tactic(auto, unfolding(crate::specs::Rows::idle_at))]
pub fn idle(nodes: &Texts, rest: &[u8]) -> Option<Item>
    ensures { result ≡ idle_at nodes.now (words_in rest.now) }
{
    let node_word = one(rest)?;
    let node = node(nodes, node_word)?;
    Some(Item::Idle { node })
}

/// `short LINK WAY USED NEED RECEIVED`
#[tactic(auto, unfolding(crate::specs::Rows::short_at))]
pub fn short(lane: Lane, rest: &[u8]) -> Option<Item>
    ensures { result ≡ short_at lane (words_in rest.now) }
{
    let (used_word, need_word, received_word) = three(rest)?;
    let used = long(used_word)?;
    let need = long(need_word)?;
    let received = long(received_word)?;
    Some(Item::Short {
        lane,
        used,
        need,
        received,
    })
}

/// `sent LINK WAY NUMBER OFFSET LENGTH`
#[tactic(auto, unfolding(crate::specs::Rows::sent_at))]
pub fn sent(lane: Lane, rest: &[u8]) -> Option<Item>
    ensures { result ≡ sent_at lane (words_in rest.now) }
{
    let (number_word, offset_word, length_word) = three(rest)?;
    let number = long(number_word)?;
    let offset = long(offset_word)?;
    let length = short_number(length_word)?;
    Some(Item::Sent {
        lane,
        number,
        offset,
        length,
    })
}

/// `unsent LINK WAY OFFSET CAUSE`
#[tactic(auto, unfolding(crate::specs::Rows::unsent_at))]
pub fn unsent(lane: Lane, rest: &[u8]) -> Option<Item>
    ensures { result ≡ unsent_at lane (words_in rest.now) }
{
    let (offset_word, cause_word) = two(rest)?;
    let offset = long(offset_word)?;
    let cause = cause(cause_word)?;
    Some(Item::Unsent {
        lane,
        offset,
        cause,
    })
}

/// `pass LINK WAY NUMBER RESULT`
#[tactic(auto, unfolding(crate::specs::Rows::passed_at))]
pub fn passed(lane: Lane, rest: &[u8]) -> Option<Item>
    ensures { result ≡ passed_at lane (words_in rest.now) }
{
    let (number_word, rest) = word(rest)?;
    let number = number(number_word)?;
    let result = frame_result(rest)?;
    Some(Item::Passed {
        lane,
        number,
        result,
    })
}

/// `flip LINK WAY NUMBER BIT RESULT`
#[tactic(auto, unfolding(crate::specs::Rows::flipped_at))]
pub fn flipped(lane: Lane, rest: &[u8]) -> Option<Item>
    ensures { result ≡ flipped_at lane (words_in rest.now) }
{
    let (number_word, rest) = word(rest)?;
    let (bit_word, rest) = word(rest)?;
    let frame = number(number_word)?;
    let bit = number(bit_word)?;
    let result = frame_result(rest)?;
    Some(Item::Flipped {
        lane,
        number: frame,
        bit,
        result,
    })
}

/// `forge LINK WAY RESULT`
#[tactic(auto, unfolding(crate::specs::Rows::forged_at))]
pub fn forged(lane: Lane, rest: &[u8]) -> Option<Item>
    ensures { result ≡ forged_at lane (words_in rest.now) }
{
    let result = frame_result(rest)?;
    Some(Item::Forged { lane, result })
}

/// `link LINK up` or `link LINK down`
#[tactic(auto, unfolding(crate::specs::Rows::link_set_at))]
pub fn link_set(rest: &[u8]) -> Option<Item>
    ensures { result ≡ link_set_at (words_in rest.now) }
{
    let (link_word, up_word) = two(rest)?;
    let link = link(link_word)?;
    let up = up(up_word)?;
    Some(Item::LinkSet { link, up })
}

#[tactic(auto, unfolding(crate::specs::Rows::counted_at))]
fn counted(lane: Lane, rest: &[u8]) -> Option<Item>
    ensures { result ≡ counted_at lane (words_in rest.now) }
{
    let (received_word, rest) = word(rest)?;
    let (_, rest) = word(rest)?;
    let (unused_word, rest) = word(rest)?;
    let (_, rest) = word(rest)?;
    let (spent_word, rest) = word(rest)?;
    let (_, rest) = word(rest)?;
    let (burnt_word, _) = word(rest)?;
    let received = long(received_word)?;
    let unused = long(unused_word)?;
    let spent = long(spent_word)?;
    let burnt = long(burnt_word)?;
    Some(Item::Counted {
        lane,
        counts: Counts4 {
            received,
            unused,
            spent,
            burnt,
        },
    })
}

/// `ledger LINK WAY received R unused U spent S burnt B` or `ledger LINK WAY REFUSAL`
#[tactic(auto, unfolding(crate::specs::Rows::ledger_at))]
pub fn ledger(lane: Lane, rest: &[u8]) -> Option<Item>
    ensures { result ≡ ledger_at lane (words_in rest.now) }
{
    let (first, others) = word(rest)?;
    if first == b"received".as_slice() {
        counted(lane, others)
    } else {
        let refusal = refusal(rest)?;
        Some(Item::NotCounted { lane, refusal })
    }
}
