// Rule 13: what is handed out.
ghost use Rattle.std.specs.Prelude.{◌≡◌, ◌*◌, ◌==◌, length};
ghost use Rattle.qkd_base.specs.Name.{has};
ghost use Rattle.item_audit.specs.Handing.{is_next_key, ascend, may_refuse_enc, hands_first, have_names, repeats_at, are_different, are_different_to, may_refuse_dec, hands_named, may_refuse_status, tells_status, hands};

use crate::entitled::{is_at_home, may_ask, may_share};
use qkd_base::{KeyName, NameKind, NodeNo, Octets};
use run_types::{Command, Item, Refusal};
use sae_entitlements::Entitlements;

// Whether the bytes are those of a key of this size.
fn is_sized(bytes: &Octets, bits: u16) -> bool
    ensures { result ≡ (8 * length bytes.now == bits) }
{
    bits % 8 == 0 && bytes.len() == (bits / 8) as usize
}

// Whether a key has the size, was named by the node, and has a count above this one.
fn is_next_key(node: NodeNo, bits: u16, above: u64, key: &(KeyName, Octets)) -> bool
    ensures { result ≡ is_next_key node bits above key.now }
{
    let (name, bytes) = key;
    above < name.count()
        && name.node() == node
        && matches!(name.kind(), NameKind::Key)
        && is_sized(bytes, bits)
}

// Whether keys of the size were named by a node, and stand in order of their counts, all above this one.
fn ascend(node: NodeNo, bits: u16, above: u64, keys: &[(KeyName, Octets)]) -> bool
    ensures { result ≡ ascend node bits above keys.now }
{
    let mut last = above;
    for place in 0..keys.len() {
        let key = &keys[place];
        if !is_next_key(node, bits, last, key) {
            return false;
        }
        last = key.0.count();
    }
    true
}

// Whether an enc may be refused so.
fn may_refuse_enc(may_ask: bool, count: u16, refusal: Refusal) -> bool
    ensures { result ≡ may_refuse_enc may_ask count refusal }
{
    match refusal {
        Refusal::Down => true,
        Refusal::NotAllowed => !may_ask,
        Refusal::Few { count: ready } => may_ask && ready < u32::from(count),
        Refusal::Memory | Refusal::JournalFull { .. } | Refusal::Stopped => may_ask,
        _ => false,
    }
}

// Whether an enc may give the item.
fn hands_first(may_ask: bool, node: NodeNo, count: u16, bits: u16, item: &Item) -> bool
    ensures { result ≡ hands_first may_ask node count bits item.now }
{
    match item {
        Item::Keys(keys) => {
            may_ask && keys.len() == usize::from(count) && ascend(node, bits, 0, keys.as_slice())
        }
        Item::Refused(refusal) => may_refuse_enc(may_ask, count, *refusal),
        _ => true,
    }
}

// Whether keys have these names, in this order.
fn have_names(names: &[KeyName], keys: &[(KeyName, Octets)]) -> bool
    ensures { result ≡ have_names names.now keys.now }
{
    if names.len() != keys.len() {
        return false;
    }
    for place in 0..names.len() {
        if keys[place].0 != names[place] {
            return false;
        }
    }
    true
}

// Whether a name is among these.
fn has(names: &[KeyName], name: KeyName) -> bool
    ensures { result ≡ has names.now name }
{
    names.iter().any(|other| *other == name)
}

// Whether the name at a place stands at an earlier place, too.
fn repeats_at(names: &[KeyName], place: usize) -> bool
    ensures { result ≡ repeats_at names.now place }
{
    match names.get(place) {
        Some(name) => has(&names[..place], *name),
        None => false,
    }
}

// Whether no name stands twice among the first ones.
fn are_different(names: &[KeyName], count: usize) -> bool
    ensures { result ≡ are_different names.now count }
{
    for steps in 0..count {
        if repeats_at(names, count - 1 - steps) {
            return false;
        }
    }
    true
}

// Whether the place is one of a name, and no name stands twice before it.
fn are_different_to(names: &[KeyName], place: u16) -> bool
    ensures { result ≡ are_different_to names.now place }
{
    let place = usize::from(place);
    place < names.len() && are_different(names, place)
}

// Whether a dec may be refused so.
fn may_refuse_dec(may_ask: bool, names: &[KeyName], refusal: Refusal) -> bool
    ensures { result ≡ may_refuse_dec may_ask names.now refusal }
{
    match refusal {
        Refusal::Down => true,
        Refusal::NotAllowed => !may_ask,
        Refusal::Unknown { place } | Refusal::Handed { place } => {
            may_ask && are_different_to(names, place) && !repeats_at(names, usize::from(place))
        }
        Refusal::Repeated { place } => {
            may_ask && are_different_to(names, place) && repeats_at(names, usize::from(place))
        }
        Refusal::Memory | Refusal::JournalFull { .. } | Refusal::Stopped => may_ask,
        _ => false,
    }
}

// Whether a dec may give the item.
fn hands_named(may_ask: bool, names: &[KeyName], item: &Item) -> bool
    ensures { result ≡ hands_named may_ask names.now item.now }
{
    match item {
        Item::Keys(keys) => {
            may_ask && have_names(names, keys.as_slice()) && are_different(names, names.len())
        }
        Item::Refused(refusal) => may_refuse_dec(may_ask, names, *refusal),
        _ => true,
    }
}

// Whether a status may be refused so.
fn may_refuse_status(may_ask: bool, refusal: Refusal) -> bool
    ensures { result ≡ may_refuse_status may_ask refusal }
{
    match refusal {
        Refusal::Down => true,
        Refusal::NotAllowed => !may_ask,
        Refusal::Memory => may_ask,
        _ => false,
    }
}

// Whether a status may give the item.
fn tells_status(may_ask: bool, item: &Item) -> bool
    ensures { result ≡ tells_status may_ask item.now }
{
    match item {
        Item::Ready { .. } => may_ask,
        Item::Refused(refusal) => may_refuse_status(may_ask, *refusal),
        _ => true,
    }
}

/// Whether a line may give the item, as far as it asks for keys.
pub fn hands(grants: &Entitlements, command: &Command, item: &Item) -> bool
    ensures { result ≡ hands grants.now command.now item.now }
{
    match command {
        Command::Enc {
            node,
            master,
            slave,
            count,
            bits,
        } => {
            let may = may_ask(grants, *node, *master, *master, *slave);
            hands_first(may, *node, *count, *bits, item)
        }
        Command::EncGroup {
            node,
            master,
            count,
            bits,
            slaves,
        } => {
            let may = is_at_home(grants, *node, *master)
                && may_share(grants, *master, slaves.as_slice());
            hands_first(may, *node, *count, *bits, item)
        }
        Command::Dec {
            node,
            slave,
            master,
            names,
        } => {
            let may = may_ask(grants, *node, *slave, *master, *slave);
            hands_named(may, names.as_slice(), item)
        }
        Command::Status {
            node,
            master,
            slave,
        } => tells_status(may_ask(grants, *node, *master, *master, *slave), item),
        _ => true,
    }
}
