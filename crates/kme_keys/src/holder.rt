// Which fact has the bytes of a key.
ghost use Rattle.std.specs.Prelude.{◌≡◌, slice_get, IfSome, IfNone, find};
ghost use Rattle.std.specs.Option.{option_copied};
ghost use Rattle.net_model.specs.Pools.{is_for};
ghost use Rattle.net_model.specs.Table.{is_part_of};
ghost use Rattle.relay_core.specs.Firsts.{IsFirstFrom, IsNoneFrom};
ghost use Rattle.kme_keys.specs.Holding.{held_fact, is_key_for, is_part_for, passes_at};

use net_model::Fact;
use qkd_base::{KeyName, SaeNo};
use relay_core::{Group, Known};

/// Which fact has the bytes of a key that is handed out under a name.
#[derive(Clone, Copy, Debug)]
pub enum Holder {
    /// The fact of this name.
    Named,
    /// The fact by which the slave has a key of this name from the master: the key itself, or the slave's part of the
    /// group key.
    ForSlave { master: SaeNo, slave: SaeNo },
    /// The first part of the group key of that name.
    Group,
}

// Whether a fact is the key of this name, from this master for this slave.
fn is_key_for(fact: &Fact, of: SaeNo, to: SaeNo, name: KeyName) -> bool
    ensures { result ≡ is_key_for of to name fact.now }
{
    match fact {
        Fact::Key {
            name: key,
            master,
            slave,
            ..
        } => *key == name && *master == of && *slave == to,
        _ => false,
    }
}

// Whether a fact is the part, for this slave, of this master's group key with this name.
fn is_part_for(fact: &Fact, of: SaeNo, to: SaeNo, name: KeyName) -> bool
    ensures { result ≡ is_part_for of to name fact.now }
{
    match fact {
        Fact::Part {
            key,
            master,
            slave,
            ..
        } => *key == name && *master == of && *slave == to,
        _ => false,
    }
}

// Whether the fact at a place is the key of this name, from this master for this slave.
fn is_key_at(known: &Known, place: usize, of: SaeNo, to: SaeNo, name: KeyName) -> bool
    ensures { result ≡ passes_at (is_key_for of to name) (slice_get known.now.facts place) }
{
    match known.at(place) {
        None => false,
        Some(fact) => is_key_for(fact, of, to, name),
    }
}

fn is_part_at(known: &Known, place: usize, of: SaeNo, to: SaeNo, name: KeyName) -> bool
    ensures { result ≡ passes_at (is_part_for of to name) (slice_get known.now.facts place) }
{
    match known.at(place) {
        None => false,
        Some(fact) => is_part_for(fact, of, to, name),
    }
}

// The place of the key of this name, from this master for this slave.
fn key_place(known: &Known, of: SaeNo, to: SaeNo, name: KeyName) -> Option<usize>
    ensures first { IfSome result (λ place. IsFirstFrom (is_key_for of to name) known.now.facts 0 place) }
    ensures none { IfNone result (IsNoneFrom (is_key_for of to name) known.now.facts 0) }
{
    // The contract of `len` also says that all names differ.
    let _holds = known.len();
    match known.next(&Group::Named(name), 0) {
        None => None,
        Some(place) => {
            if is_key_at(known, place, of, to, name) {
                Some(place)
            } else {
                None
            }
        }
    }
}

// The place of the first part, for this slave, of this master's group key with this name.
fn part_place(known: &Known, of: SaeNo, to: SaeNo, name: KeyName) -> Option<usize>
    ensures first { IfSome result (λ place. IsFirstFrom (is_part_for of to name) known.now.facts 0 place) }
    ensures none { IfNone result (IsNoneFrom (is_part_for of to name) known.now.facts 0) }
{
    let mut from = 0;
    while from < known.len() {
        match known.next_part(name, from) {
            None => return None,
            Some(place) => {
                if is_part_at(known, place, of, to, name) {
                    return Some(place);
                }
                from = place + 1;
            }
        }
    }
    None
}

// The place of the first fact by which the slave has a key of this name from the master.
fn slave_place(known: &Known, of: SaeNo, to: SaeNo, name: KeyName) -> Option<usize>
    ensures first { IfSome result (λ place. IsFirstFrom (is_for of to name) known.now.facts 0 place) }
    ensures none { IfNone result (IsNoneFrom (is_for of to name) known.now.facts 0) }
{
    match key_place(known, of, to, name) {
        None => match part_place(known, of, to, name) {
            None => None,
            Some(part) => Some(part),
        },
        Some(key) => match part_place(known, of, to, name) {
            None => Some(key),
            Some(part) => Some(if key < part { key } else { part }),
        },
    }
}

// The first fact by which the slave has a key of this name from the master.
fn slave_fact(known: &Known, of: SaeNo, to: SaeNo, name: KeyName) -> Option<&Fact>
    ensures { option_copied result ≡ find (is_for of to name) known.now.facts }
{
    match slave_place(known, of, to, name) {
        None => None,
        Some(place) => known.at(place),
    }
}

// The first part of a group key.
fn first_part(known: &Known, name: KeyName) -> Option<&Fact>
    ensures { option_copied result ≡ find (is_part_of name) known.now.facts }
{
    match known.next_part(name, 0) {
        None => None,
        Some(place) => known.at(place),
    }
}

impl Holder {
    /// The fact that has the bytes of this name.
    pub fn fact<'a>(&self, known: &'a Known, name: KeyName) -> Option<&'a Fact>
        ensures { option_copied result ≡ held_fact self.now known.now.facts name }
    {
        match *self {
            Holder::Named => known.fact(name),
            Holder::ForSlave { master, slave } => slave_fact(known, master, slave, name),
            Holder::Group => first_part(known, name),
        }
    }
}
