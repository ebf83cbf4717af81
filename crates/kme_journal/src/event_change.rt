// What an event changes, decided before its random octets are drawn.
ghost use Rattle.std.specs.Prelude.{◌≡◌, ℕ, Bool, List, Ok, Err, IfOk, IfErr, replicate, true};
ghost use Rattle.declared_site.specs.SiteOf.{site_of};
ghost use Rattle.net_model.specs.Decide.{decide, random_need};
ghost use Rattle.net_model.specs.Events.{is_valid_event};
ghost use Rattle.hop_frames.specs.Sealing.{hop_sealing};
ghost use Rattle.kme_base.specs.Up.{AreUp};
ghost use Rattle.kme_base.specs.Steps.{IsStep, placings_of};
ghost use Rattle.kme_node.specs.Holdings.{view, Fits};

use crate::frame::heard;
use kme_base::Step;
use kme_node::Node;
use net_model::{Event, Reply};
use qkd_base::Memory;
use std::alloc::Global;

// `count` octets, all 0.
fn zeros(alloc: Global, count: usize) -> Result<Vec<u8>, Memory>
    ensures { IfOk result (λ octets. octets.items ≡ replicate count 0) }
{
    let octets = vec![in alloc; 0u8; count]?;
    Ok(octets)
}

// What an event changes if it draws these random octets.
fn decided(alloc: Global, node: &Node, event: &Event, random: &[u8], up: u32) -> Result<Step, Reply>
    requires { is_valid_event (site_of node.now.site) (view node.now).me event.now ≡ true }
    ensures step { (is_up : ℕ → Bool) → AreUp up is_up
        → IsStep (view node.now) (placings_of event.now) (decide (site_of node.now.site) hop_sealing is_up (view node.now) random.now event.now) result }
    ensures fits { IfOk result (Fits node.now) }
{
    match event {
        Event::Heard { lane, bytes } => heard(alloc, node, *lane, bytes.as_slice()),
        _ => node.step(alloc, event, random, up),
    }
}

/// What an event changes, with zeros in place of the random octets that it draws, and these zeros. If the event is
/// refused, the refusal comes even when there is no memory for the zeros.
pub fn decided_over_zeros(
    alloc: Global,
    node: &Node,
    event: &Event,
    up: u32,
) -> Result<(Step, Vec<u8>), Reply>
    requires { is_valid_event (site_of node.now.site) (view node.now).me event.now ≡ true }
    ensures zeros { IfOk result (λ made. made.1.items ≡ replicate (random_need (view node.now) event.now) 0) }
    ensures step { (is_up : ℕ → Bool) → AreUp up is_up
        → IfOk result (λ made. IsStep (view node.now) (placings_of event.now) (decide (site_of node.now.site) hop_sealing is_up (view node.now) made.1.items event.now) (Ok made.0)) }
    ensures fits { IfOk result (λ made. Fits node.now made.0) }
    ensures refused { (is_up : ℕ → Bool) (random : List ℕ) → AreUp up is_up
        → IfErr result (λ reply. IsStep (view node.now) (placings_of event.now) (decide (site_of node.now.site) hop_sealing is_up (view node.now) random event.now) (Err reply)) }
{
    match zeros(alloc, node.random_need(event)) {
        Err(_) => match decided(alloc, node, event, &[], up) {
            Err(reply) => Err(reply),
            Ok(_) => Err(Reply::Memory),
        },
        Ok(random) => match decided(alloc, node, event, &random, up) {
            Err(reply) => Err(reply),
            Ok(step) => Ok((step, random)),
        },
    }
}
