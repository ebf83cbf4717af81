// Making new group keys.
ghost use Rattle.std.specs.Prelude.{◌≡◌, ◌≤◌, ◌+◌, ◌/◌, ◌^◌, ◌++◌, ℕ, Bool, [], IfOk, OnOk, length, is_some, true};
ghost use Rattle.declared_site.specs.SiteOf.{IsDeclared, site_of};
ghost use Rattle.net_model.specs.View.{View};
ghost use Rattle.net_model.specs.Groups.{fill_group, filled_group, new_groups, new_parts, routes_to};
ghost use Rattle.end_store.specs.Pooled.{Sees, ends_view};
ghost use Rattle.kme_base.specs.Up.{AreUp};
ghost use Rattle.kme_base.specs.Steps.{IsStep};

use crate::group_ready::group_count;
use crate::routes::{has_routes, routes};
use crate::{GroupPool, first_octets, fresh_name, octets_behind};
use declared_site::Site;
use end_store::EndStore;
use kme_base::{Change, Step, is_entitled_group};
use net_model::{Fact, Record, Records, Reply};
use qkd_base::{Items, KeyName, Memory, Octets, Route, SaeNo};
use std::alloc::Global;

// Adds the parts of a group key, one for each slave. The first part's name has the next unused count plus `more`.
// Returns the `more` for a part after the last one.
fn push_parts(
    alloc: Global,
    store: &EndStore,
    batch: &mut Records,
    key: KeyName,
    master: SaeNo,
    routes: &[(SaeNo, Route)],
    bytes: &[u8],
    more: u64,
) -> Result<u64, Memory>
    requires { more ≤ 2 ^ 48 }
    ensures parts { OnOk result (batch.new ≡ batch.old ++ new_parts (ends_view store.now) key master routes.now bytes.now more) }
    ensures next { IfOk result (λ next. next ≡ more + length routes.now) }
    ensures bound { IfOk result (λ next. next ≤ 2 ^ 48) }
{
    let mut next = more;
    for routed in routes {
        let name = fresh_name(store, next)?;
        let fact = Fact::Part {
            name,
            key,
            master,
            slave: routed.0,
            route: routed.1,
            bytes: Octets::from_slice(alloc, bytes)?,
        };
        batch.push(Record::Learned { fact })?;
        next += 1;
    }
    Ok(next)
}

// The records of `count` new group keys, each made of the next octets.
fn new_groups(
    alloc: Global,
    store: &EndStore,
    pool: &GroupPool,
    routes: &[(SaeNo, Route)],
    count: u16,
    random: &[u8],
) -> Result<Records, Memory>
    ensures { IfOk result (λ batch. batch ≡ new_groups (ends_view store.now) pool.now.master routes.now (pool.now.bits / 8) random.now 0 count) }
{
    let size = (pool.bits / 8) as usize;
    let mut batch = Items::new(alloc);
    let mut left = random;
    let mut more = 0;
    for _turn in 0..count {
        let key = fresh_name(store, more)?;
        let bytes = first_octets(left, size);
        more = push_parts(
            alloc,
            store,
            &mut batch,
            key,
            pool.master,
            routes,
            bytes,
            more + 1,
        )?;
        left = octets_behind(left, size);
    }
    Ok(batch)
}

// The step that makes `count` group keys on these routes, unless the pool would have too many keys.
fn filled_group(
    alloc: Global,
    site: &Site,
    up: u32,
    store: &EndStore,
    pool: &GroupPool,
    count: u16,
    random: &[u8],
) -> Result<Step, Reply>
    requires declared { IsDeclared site.now }
    requires some { 1 ≤ length pool.now.slaves.now }
    ensures { (v : View) (is_up : ℕ → Bool) → AreUp up is_up → Sees v store.now → is_some (routes_to (site_of site.now) is_up v.me pool.now.slaves.now) ≡ true
        → IsStep v [] (filled_group v pool.now.master pool.now.slaves.now pool.now.bits count random.now (routes_to (site_of site.now) is_up v.me pool.now.slaves.now)) result }
{
    if 4096 < group_count(store, pool, false, 4097) + count as usize {
        return Err(Reply::PoolFull);
    }
    let Ok(first) = fresh_name(store, 0) else {
        return Err(Reply::Memory);
    };
    let Ok(routes) = routes(alloc, site, up, store.known().me(), pool.slaves) else {
        return Err(Reply::Memory);
    };
    match new_groups(alloc, store, pool, &routes, count, random) {
        Err(_) => Err(Reply::Memory),
        Ok(batch) => Ok(Step {
            batch,
            reply: Reply::MadeKeys { count, first },
            change: Change::Same,
        }),
    }
}

/// Makes group keys of the next random octets. The routes to the slaves use only links that are up. Bit l of `up`
/// says that link l is up. Refusals: `NotAllowed` if the master isn't at home here or its pair with a slave isn't
/// allowed; `NoRoute` if no route leads to some slave's home; `PoolFull` if more than 4,096 such keys would wait for
/// the master.
pub fn fill_group(
    alloc: Global,
    site: &Site,
    up: u32,
    store: &EndStore,
    pool: &GroupPool,
    count: u16,
    random: &[u8],
) -> Result<Step, Reply>
    requires declared { IsDeclared site.now }
    requires some { 1 ≤ length pool.now.slaves.now }
    ensures { (v : View) (is_up : ℕ → Bool) → AreUp up is_up → Sees v store.now
        → IsStep v [] (fill_group (site_of site.now) is_up v pool.now.master pool.now.slaves.now pool.now.bits count random.now) result }
{
    let me = store.known().me();
    if !is_entitled_group(site, me, pool.master, pool.slaves) {
        return Err(Reply::NotAllowed);
    }
    if !has_routes(site, up, me, pool.slaves) {
        return Err(Reply::NoRoute);
    }
    filled_group(alloc, site, up, store, pool, count, random)
}
