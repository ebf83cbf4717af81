// Handing ready keys to their master, and counting them.
ghost use Rattle.std.specs.Prelude.{◌≡◌, ◌≤◌, ◌^◌, [], length, OnErr, IsErrOf};
ghost use Rattle.declared_site.specs.SiteOf.{IsDeclared, site_of};
ghost use Rattle.net_model.specs.View.{View};
ghost use Rattle.net_model.specs.declared.reply.Reply.TheVariants.{ReadyCount, Memory};
ghost use Rattle.net_model.specs.Decision.{answers};
ghost use Rattle.net_model.specs.Pools.{enc, pool, status};
ghost use Rattle.end_store.specs.Pooled.{Sees, ends_view};
ghost use Rattle.kme_base.specs.Steps.{IsStep};

use crate::{Holder, hand_out};
use declared_site::Site;
use end_store::EndStore;
use kme_base::{Change, Step, is_entitled};
use net_model::Reply;
use qkd_base::{Items, PoolNo, SaeNo};
use std::alloc::Global;

/// Hands the first ready keys of a pool to their master (ETSI GS QKD 014 V1.1.1, Get key). Refusals: `NotAllowed` if
/// the pair isn't allowed or the master isn't at home here; `Few` if too few keys are ready.
pub fn enc(
    alloc: Global,
    site: &Site,
    store: &EndStore,
    pool: &PoolNo,
    number: u16,
) -> Result<Step, Reply>
    requires { IsDeclared site.now }
    ensures { (v : View) → Sees v store.now → IsStep v [] (enc (site_of site.now) v pool.now.master pool.now.slave number pool.now.bits) result }
{
    let known = store.known();
    if !is_entitled(site, known.me(), pool.master, pool.master, pool.slave) {
        return Err(Reply::NotAllowed);
    }
    // The ready keys are counted first, since a refusal must not allocate.
    let ready = store.ready_count(pool, number as usize);
    if ready < number as usize {
        return Err(Reply::Few {
            count: ready as u32,
        });
    }
    match store.ready_keys(alloc, pool, number as usize) {
        Err(_) => Err(Reply::Memory),
        Ok(names) => hand_out(alloc, known, &Holder::Named, &names, pool.master),
    }
}

// The step that reports the number of ready keys. An `Err` (out of memory) if the number doesn't fit in 32 bits.
fn ready_count(alloc: Global, count: usize) -> Result<Step, Reply>
    ensures step { (v : View) → IsStep v [] (answers v (ReadyCount count)) result }
    ensures large { OnErr result (2 ^ 32 ≤ count) }
{
    if count >= 1 << 32 {
        return Err(Reply::Memory);
    }
    Ok(Step {
        batch: Items::new(alloc),
        reply: Reply::ReadyCount {
            count: count as u32,
        },
        change: Change::Same,
    })
}

/// Counts the ready keys of 256 bits of a pair (ETSI GS QKD 014 V1.1.1, Get status). It refuses with `NotAllowed` as
/// `enc` does.
pub fn status(
    alloc: Global,
    site: &Site,
    store: &EndStore,
    master: SaeNo,
    slave: SaeNo,
) -> Result<Step, Reply>
    requires { IsDeclared site.now }
    ensures step { (v : View) → Sees v store.now → IsStep v [] (status (site_of site.now) v master slave) result }

    // Counting takes no memory: the number is all that may be too large.
    ensures large { IsErrOf result Memory → 2 ^ 32 ≤ length (pool (ends_view store.now) master slave 256) }
{
    let known = store.known();
    if !is_entitled(site, known.me(), master, master, slave) {
        return Err(Reply::NotAllowed);
    }
    // The contract of `last_count` also bounds the number of names.
    let _holds = known.last_count();
    let pool = PoolNo {
        master,
        slave,
        bits: 256,
    };
    ready_count(alloc, store.ready_count(&pool, 1 << 48))
}
