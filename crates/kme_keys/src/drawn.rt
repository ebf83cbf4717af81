// The number of random octets that an event needs for new keys.
ghost use Rattle.std.specs.Prelude.{◌≡◌, ◌≤◌, ◌/◌, ◌*◌, ℕ, Bool, List, Some, length};
ghost use Rattle.net_model.specs.Site.{Site};
ghost use Rattle.net_model.specs.View.{View};
ghost use Rattle.net_model.specs.Table.{fact_at};
ghost use Rattle.net_model.specs.Streams.{chunk_size};
ghost use Rattle.net_model.specs.Decide.{random_need};
ghost use Rattle.net_model.specs.Pools.{fill};
ghost use Rattle.kme_base.specs.Random.{decision_over};

use net_model::{Event, Fact};
use qkd_base::KeyName;
use relay_core::Known;

// The size of a stream's chunks in octets, or 0 if the stream isn't known.
fn chunk_size(known: &Known, stream: KeyName) -> u16
    ensures { result ≡ chunk_size (fact_at known.now.facts stream) }
{
    match known.fact(stream) {
        None => 0,
        Some(fact) => stated_size(fact),
    }
}

// The size in octets of the chunks of the stream that a fact opens, or 0 if it opens no stream.
fn stated_size(fact: &Fact) -> u16
    ensures { result ≡ chunk_size (Some fact.now) }
{
    match fact {
        Fact::Open { length, .. } => *length,
        _ => 0,
    }
}

/// The number of random octets that an event needs.
pub fn random_need(known: &Known, event: &Event) -> usize
    ensures { (v : View) → v.facts ≡ known.now.facts → result ≡ random_need v event.now }
{
    match event {
        Event::Fill { bits, count, .. } => (*bits / 8) as usize * *count as usize,
        Event::FillGroup { bits, count, .. } => (*bits / 8) as usize * *count as usize,
        Event::Feed { stream, count } => chunk_size(known, *stream) as usize * *count as usize,
        _ => 0,
    }
}

/// Proof only. A fill that is decided with some octets, such as zeros, becomes the one decided with other octets if
/// these are put in their place.
pub fn law_fill_over_other_octets()
    ensures { (site : Site) (up : ℕ → Bool) (v : View) (master slave bits count : ℕ) (zeros random : List ℕ) → bits / 8 * count ≤ length zeros → bits / 8 * count ≤ length random
        → decision_over random (fill site up v master slave bits count zeros) ≡ fill site up v master slave bits count random }
{}
