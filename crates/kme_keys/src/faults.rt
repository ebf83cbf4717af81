// Handing keys with given names to their slave, or the first fault of these names.
ghost use Rattle.std.specs.Prelude.{◌≡◌, ◌≤◌, [], length, is_some};
ghost use Rattle.declared_site.specs.SiteOf.{IsDeclared, site_of};
ghost use Rattle.qkd_base.specs.Name.{has};
ghost use Rattle.net_model.specs.View.{View};
ghost use Rattle.net_model.specs.Pools.{dec, dec_fault, for_slave};
ghost use Rattle.end_store.specs.Pooled.{Sees, ends_view};
ghost use Rattle.kme_base.specs.Steps.{IsStep};
ghost use Rattle.kme_keys.specs.Holding.{name_fault};

use crate::{Holder, hand_out};
use declared_site::Site;
use end_store::EndStore;
use kme_base::{Step, is_entitled};
use net_model::Reply;
use qkd_base::{KeyName, SaeNo};
use std::alloc::Global;

// Whether a name is in a list of names.
fn has_name(names: &[KeyName], name: KeyName) -> bool
    ensures { result ≡ has names.now name }
{
    names.iter().any(|n| *n == name)
}

// Whether a slave has a key of this name from this master.
fn is_known(store: &EndStore, master: SaeNo, slave: SaeNo, name: KeyName) -> bool
    ensures { result ≡ is_some (for_slave (ends_view store.now) master slave name) }
{
    let holder = Holder::ForSlave { master, slave };
    holder.fact(store.known(), name).is_some()
}

// The fault of a name, given the names before it in the request. `None` if it has no fault.
fn name_fault(
    store: &EndStore,
    master: SaeNo,
    slave: SaeNo,
    before: &[KeyName],
    name: KeyName,
) -> Option<Reply>
    requires { length before.now ≤ 65535 }
    ensures { result ≡ name_fault (ends_view store.now) master slave before.now name }
{
    let place = before.len() as u16;
    if !is_known(store, master, slave, name) {
        Some(Reply::Unknown { place })
    } else if has_name(before, name) {
        Some(Reply::Repeated { place })
    } else if store.was_handed(name, slave) {
        Some(Reply::AlreadyHanded { place })
    } else {
        None
    }
}

// The fault of the first name that has one.
fn first_fault(store: &EndStore, master: SaeNo, slave: SaeNo, names: &[KeyName]) -> Option<Reply>
    requires { length names.now ≤ 65535 }
    ensures { result ≡ dec_fault (ends_view store.now) master slave [] names.now }
{
    for place in 0..names.len() {
        match name_fault(store, master, slave, &names[..place], names[place]) {
            None => {}
            Some(fault) => return Some(fault),
        }
    }
    None
}

/// Hands all named keys to their slave, or none (ETSI GS QKD 014 V1.1.1, Get key with key IDs). It refuses with
/// `NotAllowed` if the pair isn't allowed or the slave isn't at home here. Otherwise it refuses with the fault of the
/// first name that has one, and with the place of this name:
/// - `Unknown` if the slave has no key of this name from the master;
/// - `Repeated` if an earlier name is the same;
/// - `AlreadyHanded` if the slave has got the key.
pub fn dec(
    alloc: Global,
    site: &Site,
    store: &EndStore,
    slave: SaeNo,
    master: SaeNo,
    names: &[KeyName],
) -> Result<Step, Reply>
    requires declared { IsDeclared site.now }
    requires few { length names.now ≤ 65535 }
    ensures { (v : View) → Sees v store.now → IsStep v [] (dec (site_of site.now) v slave master names.now) result }
{
    let known = store.known();
    if !is_entitled(site, known.me(), slave, master, slave) {
        return Err(Reply::NotAllowed);
    }
    match first_fault(store, master, slave, names) {
        Some(fault) => Err(fault),
        None => hand_out(
            alloc,
            known,
            &Holder::ForSlave { master, slave },
            names,
            slave,
        ),
    }
}
