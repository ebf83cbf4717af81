// Handing out keys.
ghost use Rattle.std.specs.Prelude.{◌≡◌, IfOk, [], map};
ghost use Rattle.net_model.specs.Table.{bytes_of};
ghost use Rattle.net_model.specs.declared.reply.Reply.TheVariants.{Handed};
ghost use Rattle.net_model.specs.View.{View};
ghost use Rattle.net_model.specs.Decision.{makes};
ghost use Rattle.net_model.specs.Pools.{hand_to, bytes_or_none};
ghost use Rattle.kme_base.specs.Steps.{IsStep};
ghost use Rattle.kme_keys.specs.Holding.{held_fact, held_keys};

use crate::Holder;
use kme_base::{Change, Step};
use net_model::{Fact, Record, Records, Reply};
use qkd_base::{Items, KeyName, Keys, Memory, Octets, SaeNo};
use relay_core::Known;
use std::alloc::Global;

// The records that an application has got these keys.
fn hand_to(alloc: Global, sae: SaeNo, names: &[KeyName]) -> Result<Records, Memory>
    ensures { IfOk result (λ batch. batch ≡ hand_to sae names.now) }
{
    let mut batch = Items::from_vec(Vec::with_capacity(alloc, names.len())?);
    for name in names {
        batch.push(Record::Handed { name: *name, sae })?;
    }
    Ok(batch)
}

// A copy of a fact's bytes, empty if the fact has none.
fn copy_bytes(alloc: Global, fact: &Fact) -> Result<Octets, Memory>
    ensures { IfOk result (λ bytes. bytes ≡ bytes_of fact.now) }
{
    match fact {
        Fact::Key { bytes, .. } => Octets::from_slice(alloc, bytes.as_slice()),
        Fact::Chunk { bytes, .. } => Octets::from_slice(alloc, bytes.as_slice()),
        Fact::Part { bytes, .. } => Octets::from_slice(alloc, bytes.as_slice()),
        _ => Ok(Items::new(alloc)),
    }
}

// A copy of the bytes of the key that has this name.
fn held_bytes(
    alloc: Global,
    known: &Known,
    holder: &Holder,
    name: KeyName,
) -> Result<Octets, Memory>
    ensures { IfOk result (λ bytes. bytes ≡ bytes_or_none (held_fact holder.now known.now.facts name)) }
{
    match holder.fact(known, name) {
        None => Ok(Items::new(alloc)),
        Some(fact) => copy_bytes(alloc, fact),
    }
}

// These names with copies of their bytes.
fn held_keys(
    alloc: Global,
    known: &Known,
    holder: &Holder,
    names: &[KeyName],
) -> Result<Keys, Memory>
    ensures { IfOk result (λ keys. keys ≡ held_keys holder.now known.now.facts names.now) }
{
    let mut keys = Items::from_vec(Vec::with_capacity(alloc, names.len())?);
    for name in names {
        let bytes = held_bytes(alloc, known, holder, *name)?;
        keys.push((*name, bytes))?;
    }
    Ok(keys)
}

/// The step that hands these keys, with their bytes, to an application.
pub fn hand_out(
    alloc: Global,
    known: &Known,
    holder: &Holder,
    names: &[KeyName],
    sae: SaeNo,
) -> Result<Step, Reply>
    ensures { (v : View) → v.facts ≡ known.now.facts → IsStep v [] (makes v (hand_to sae names.now) (Handed (held_keys holder.now v.facts names.now))) result }
{
    let Ok(batch) = hand_to(alloc, sae, names) else {
        return Err(Reply::Memory);
    };
    let Ok(keys) = held_keys(alloc, known, holder, names) else {
        return Err(Reply::Memory);
    };
    Ok(Step {
        batch,
        reply: Reply::Handed { keys },
        change: Change::Same,
    })
}
