// Handing ready group keys to their master.
ghost use Rattle.std.specs.Prelude.{◌≡◌, ◌≤◌, [], length};
ghost use Rattle.declared_site.specs.SiteOf.{IsDeclared, site_of};
ghost use Rattle.net_model.specs.View.{View};
ghost use Rattle.net_model.specs.Groups.{enc_group};
ghost use Rattle.end_store.specs.Pooled.{Sees};
ghost use Rattle.kme_base.specs.Steps.{IsStep};

use crate::group_ready::{group_count, ready_groups};
use crate::{GroupPool, Holder, hand_out};
use declared_site::Site;
use end_store::EndStore;
use kme_base::{Step, is_entitled_group};
use net_model::Reply;
use std::alloc::Global;

/// Hands the first ready group keys of a pool to their master (ETSI GS QKD 014 V1.1.1, Get key with additional slave
/// SAEs). Refusals: `NotAllowed` if the master isn't at home here or its pair with a slave isn't allowed; `Few` if
/// too few keys are ready.
pub fn enc_group(
    alloc: Global,
    site: &Site,
    store: &EndStore,
    pool: &GroupPool,
    number: u16,
) -> Result<Step, Reply>
    requires declared { IsDeclared site.now }
    requires some { 1 ≤ length pool.now.slaves.now }
    ensures { (v : View) → Sees v store.now → IsStep v [] (enc_group (site_of site.now) v pool.now.master pool.now.slaves.now number pool.now.bits) result }
{
    let known = store.known();
    if !is_entitled_group(site, known.me(), pool.master, pool.slaves) {
        return Err(Reply::NotAllowed);
    }
    // The ready keys are counted first, since a refusal must not allocate.
    let ready = group_count(store, pool, true, number as usize);
    if ready < number as usize {
        return Err(Reply::Few {
            count: ready as u32,
        });
    }
    match ready_groups(alloc, store, pool, number as usize) {
        Err(_) => Err(Reply::Memory),
        Ok(names) => hand_out(alloc, known, &Holder::Group, &names, pool.master),
    }
}
