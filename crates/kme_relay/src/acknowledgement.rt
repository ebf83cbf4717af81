// Acknowledgements that are received.
ghost use Rattle.std.specs.Prelude.{◌≡◌, [], ◌∷◌, IfOk};
ghost use Rattle.net_model.specs.declared.record.Record.TheVariants.{Acked};
ghost use Rattle.net_model.specs.declared.reply.Reply.TheVariants.{HeardFact};
ghost use Rattle.net_model.specs.View.{View};
ghost use Rattle.net_model.specs.Decision.{Does};
ghost use Rattle.net_model.specs.Relay.{owed, receive_ack};
ghost use Rattle.qkd_base.specs.Name.{has};
ghost use Rattle.kme_base.specs.Steps.{IsStep};
ghost use Rattle.kme_relay.specs.Knows.{Knows};

use kme_base::{Change, Step};
use net_model::{Record, Records, Reply};
use qkd_base::{KeyName, Lane, Memory, NodeNo};
use relay_core::Known;
use std::alloc::Global;

// Whether this node owes the fact of a name to a neighbour.
fn is_owed(known: &Known, to: NodeNo, name: KeyName) -> bool
    ensures { (v : View) → Knows v known.now → result ≡ has (owed v to) name }
{
    match known.creditor(name) {
        None => false,
        Some(creditor) => creditor == to,
    }
}

// The record of a new acknowledgement.
fn acked(alloc: Global, name: KeyName) -> Result<Records, Memory>
    ensures { IfOk result (λ records. records ≡ Acked name ∷ []) }
{
    let mut records = Records::new(alloc);
    records.push(Record::Acked { name })?;
    Ok(records)
}

// What a node answers when it receives an acknowledgement.
fn answer(fresh: bool, name: KeyName) -> Reply
    ensures { result ≡ HeardFact fresh 3 name }
{
    Reply::HeardFact {
        fresh,
        kind: 3,
        name,
    }
}

/// Decides about the acknowledgement of a fact, received on a lane from a neighbour.
pub fn heard_acknowledgement(
    alloc: Global,
    known: &Known,
    from: NodeNo,
    lane: Lane,
    name: KeyName,
) -> Result<Step, Reply>
    ensures { (v : View) → Knows v known.now → IsStep v [] (Does (receive_ack v lane from name)) result }
{
    if !is_owed(known, from, name) {
        return Ok(Step {
            batch: Records::new(alloc),
            reply: answer(false, name),
            change: Change::Same,
        });
    }
    match acked(alloc, name) {
        Err(_) => Err(Reply::Memory),
        Ok(batch) => Ok(Step {
            batch,
            reply: answer(true, name),
            change: Change::Acknowledged { lane, name },
        }),
    }
}
