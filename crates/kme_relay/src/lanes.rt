// Blocks of a link, and the count of a lane's bytes.
ghost use Rattle.std.specs.Prelude.{◌≡◌, ◌==◌, ℕ, Bool, List, [], ◌∷◌, Ok, Some, IfOk};
ghost use Rattle.net_model.specs.declared.event.Event.TheVariants.{Block as BlockEvent, Ledger};
ghost use Rattle.net_model.specs.declared.record.Record.TheVariants.{Block};
ghost use Rattle.net_model.specs.declared.reply.Reply.TheVariants.{Counted};
ghost use Rattle.net_model.specs.Sealing.{Sealing};
ghost use Rattle.net_model.specs.Site.{Site};
ghost use Rattle.net_model.specs.View.{View, blocks_of, port_of};
ghost use Rattle.net_model.specs.Decide.{decide};
ghost use Rattle.net_model.specs.Show.{counted_of};
ghost use Rattle.kme_base.specs.Steps.{IsStep};
ghost use Rattle.kme_relay.specs.Knows.{HasPorts};

use kme_base::{Change, LinkEnd, Ports, Step};
use net_model::{Counts4, Record, Records, Reply};
use qkd_base::{Lane, LinkNo, Memory, Octets};
use std::alloc::Global;

// Whether a link has all of its 1,024 blocks.
fn is_full(ports: &Ports, link: LinkNo) -> bool
    ensures { (v : View) → HasPorts v ports.now → result ≡ (blocks_of (port_of v link) == 1024) }
{
    match ports.get(link) {
        None => false,
        Some(end) => end.blocks() == 1024,
    }
}

// The record of a new block.
fn taken(alloc: Global, link: LinkNo, number: u32, bytes: &[u8]) -> Result<Records, Memory>
    ensures { IfOk result (λ records. records ≡ Block link number bytes.now ∷ []) }
{
    let bytes = Octets::from_slice(alloc, bytes)?;
    let mut records = Records::new(alloc);
    records.push(Record::Block {
        link,
        number,
        bytes,
    })?;
    Ok(records)
}

/// Decides about a link's next block: it is recorded, unless the link has all of its 1,024 blocks. The bytes are
/// copied into the record.
pub fn block(
    alloc: Global,
    ports: &Ports,
    link: LinkNo,
    number: u32,
    bytes: &[u8],
) -> Result<Step, Reply>
    ensures { (v : View) → HasPorts v ports.now → (site : Site) (frames : Sealing) (is_up : ℕ → Bool) (random : List ℕ) → IsStep v [] (decide site frames is_up v random (BlockEvent link number bytes.now)) result }
{
    if is_full(ports, link) {
        return Err(Reply::LinkFull);
    }
    match taken(alloc, link, number, bytes) {
        Err(_) => Err(Reply::Memory),
        Ok(batch) => Ok(Step {
            batch,
            reply: Reply::Took { number },
            change: Change::Same,
        }),
    }
}

// The counts that an end keeps of the bytes of its outgoing lane.
fn counts(end: &LinkEnd) -> Counts4
    ensures { Counted result ≡ counted_of (Some end.now.port) }
{
    let received = end.received();
    let burnt = end.recovered().saturating_sub(8);
    Counts4 {
        received,
        unused: received.saturating_sub(end.planned()),
        spent: end.planned().saturating_sub(burnt),
        burnt,
    }
}

// The counts that a manager keeps of the bytes of a lane, all 0 if it has no end of the lane's link.
fn counts_of(ports: &Ports, lane: Lane) -> Counts4
    ensures { (v : View) → HasPorts v ports.now → Counted result ≡ counted_of (port_of v lane.link) }
{
    match ports.get(lane.link) {
        None => Counts4 {
            received: 0,
            unused: 0,
            spent: 0,
            burnt: 0,
        },
        Some(end) => counts(end),
    }
}

/// The step that reports a manager's counts of the bytes of its outgoing lane. It allocates nothing.
pub fn ledger(alloc: Global, ports: &Ports, lane: Lane) -> Step
    ensures { (v : View) → HasPorts v ports.now → (site : Site) (frames : Sealing) (is_up : ℕ → Bool) (random : List ℕ) → IsStep v [] (decide site frames is_up v random (Ledger lane)) (Ok result) }
{
    Step {
        batch: Records::new(alloc),
        reply: Reply::Counted {
            counts: counts_of(ports, lane),
        },
        change: Change::Same,
    }
}
