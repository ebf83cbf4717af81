// Making new keys.
ghost use Rattle.std.specs.Prelude.{◌<◌, ◌≤◌, ◌+◌, ◌^◌, ◌≡◌, ◌/◌, ℕ, Bool, [], IfOk, OnErr, take, drop, Some};
ghost use Rattle.declared_site.specs.SiteOf.{IsDeclared, site_of};
ghost use Rattle.net_model.specs.declared.reply.Reply.TheVariants.{MadeKeys};
ghost use Rattle.net_model.specs.declared.record.Record.TheVariants.{Learned};
ghost use Rattle.net_model.specs.declared.fact.Fact.TheVariants.{Key};
ghost use Rattle.qkd_base.specs.declared.key_name.NameKind.TheVariants.{Key as KeyKind};
ghost use Rattle.net_model.specs.View.{View};
ghost use Rattle.net_model.specs.Decision.{next_count, fresh_name, makes};
ghost use Rattle.net_model.specs.Pools.{fill, filled, new_keys};
ghost use Rattle.end_store.specs.Pooled.{Sees, ends_view};
ghost use Rattle.kme_base.specs.Up.{AreUp};
ghost use Rattle.kme_base.specs.Steps.{IsStep};

use declared_site::Site;
use end_store::EndStore;
use kme_base::{Change, Step, home, is_entitled, route_between};
use net_model::{Fact, Record, Records, Reply};
use qkd_base::{Items, KeyName, Memory, NameKind, Octets, PoolNo, Route};
use std::alloc::Global;

/// The name of a new key. Its count is the next unused one plus `more`. An `Err` (out of memory) if there is no such
/// name.
pub fn fresh_name(store: &EndStore, more: u64) -> Result<KeyName, Memory>
    ensures name { IfOk result (λ name. name ≡ fresh_name (ends_view store.now) KeyKind more) }
    ensures bound { IfOk result (λ name. more < 2 ^ 48) }
    ensures none { OnErr result (2 ^ 48 ≤ next_count (ends_view store.now) + more) }
{
    if more >= 1 << 48 {
        return Err(Memory);
    }
    let count = store.known().last_count() + 1 + more;
    KeyName::new(store.known().me(), NameKind::Key, count).ok_or(Memory)
}

/// The first `size` octets, or all if there are fewer.
pub fn first_octets(octets: &[u8], size: usize) -> &[u8]
    ensures { result.now ≡ take size octets.now }
{
    &octets[..size.min(octets.len())]
}

/// The octets after the first `size` ones.
pub fn octets_behind(octets: &[u8], size: usize) -> &[u8]
    ensures { result.now ≡ drop size octets.now }
{
    &octets[size.min(octets.len())..]
}

// The record of a new key, made of the first octets.
fn new_key(
    alloc: Global,
    store: &EndStore,
    pool: &PoolNo,
    route: Route,
    random: &[u8],
    more: u16,
) -> Result<Record, Memory>
    ensures { IfOk result (λ entry. entry ≡ Learned (Key (fresh_name (ends_view store.now) KeyKind more) pool.now.master pool.now.slave route (take (pool.now.bits / 8) random.now))) }
{
    let name = fresh_name(store, more as u64)?;
    let bytes = Octets::from_slice(alloc, first_octets(random, (pool.bits / 8) as usize))?;
    Ok(Record::Learned {
        fact: Fact::Key {
            name,
            master: pool.master,
            slave: pool.slave,
            route,
            bytes,
        },
    })
}

// The records of `count` new keys, each made of the next octets.
fn new_keys(
    alloc: Global,
    store: &EndStore,
    pool: &PoolNo,
    route: Route,
    count: u16,
    random: &[u8],
) -> Result<Records, Memory>
    ensures { IfOk result (λ batch. batch ≡ new_keys (ends_view store.now) pool.now.master pool.now.slave route (pool.now.bits / 8) random.now 0 count) }
{
    let mut batch = Items::new(alloc);
    let mut left = random;
    for more in 0..count {
        let entry = new_key(alloc, store, pool, route, left, more)?;
        batch.push(entry)?;
        left = octets_behind(left, (pool.bits / 8) as usize);
    }
    Ok(batch)
}

// The step that makes `count` keys on a route, unless the pool would have too many keys.
fn filled(
    alloc: Global,
    store: &EndStore,
    pool: &PoolNo,
    route: Route,
    count: u16,
    random: &[u8],
) -> Result<Step, Reply>
    ensures { (v : View) → Sees v store.now → IsStep v [] (filled v pool.now.master pool.now.slave pool.now.bits count random.now (Some route)) result }
{
    if 4096 < store.unhanded_count(pool, 4097) + count as usize {
        return Err(Reply::PoolFull);
    }
    let Ok(first) = fresh_name(store, 0) else {
        return Err(Reply::Memory);
    };
    match new_keys(alloc, store, pool, route, count, random) {
        Err(_) => Err(Reply::Memory),
        Ok(batch) => Ok(Step {
            batch,
            reply: Reply::MadeKeys { count, first },
            change: Change::Same,
        }),
    }
}

/// Makes keys of the next random octets. Their route uses only links that are up. Bit l of `up` says that link l is
/// up. Refusals: `NotAllowed` if the pair isn't allowed or the master isn't at home here; `NoRoute` if no route leads
/// to the slave's home; `PoolFull` if more than 4,096 keys would wait for the master.
pub fn fill(
    alloc: Global,
    site: &Site,
    up: u32,
    store: &EndStore,
    pool: &PoolNo,
    count: u16,
    random: &[u8],
) -> Result<Step, Reply>
    requires { IsDeclared site.now }
    ensures { (v : View) (is_up : ℕ → Bool) → AreUp up is_up → Sees v store.now → IsStep v [] (fill (site_of site.now) is_up v pool.now.master pool.now.slave pool.now.bits count random.now) result }
{
    let me = store.known().me();
    if !is_entitled(site, me, pool.master, pool.master, pool.slave) {
        return Err(Reply::NotAllowed);
    }
    match route_between(site, up, me, home(site, pool.slave)) {
        None => Err(Reply::NoRoute),
        Some(route) => filled(alloc, store, pool, route, count, random),
    }
}
