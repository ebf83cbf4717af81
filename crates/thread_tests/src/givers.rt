// Managers that give each caller two keys.
ghost use Rattle.std.specs.Prelude.{◌-◌, ◌^◌};

use kme_serve::{Managers, Turn};
use net_model::{Event, Reply};
use qkd_base::{Items, KeyName, Keys, Memory, NameKind, NodeNo, Octets};
use std::alloc::Global;
use std::sync::Wait;

const KEYS: &[&[u8]] = &[
    b"\x00\x01\x02\x03\x04\x05\x06\x07\x08\x09\x0a\x0b\x0c\x0d\x0e\x0f\x10\x11\x12\x13\x14\x15\x16\x17\x18\x19\x1a\x1b\x1c\x1d\x1e\x1f",
    b"\x20\x21\x22\x23\x24\x25\x26\x27\x28\x29\x2a\x2b\x2c\x2d\x2e\x2f\x30\x31\x32\x33\x34\x35\x36\x37\x38\x39\x3a\x3b\x3c\x3d\x3e\x3f",
];

/// Managers whose first two turns hand out a key each; then there are none.
#[derive(Drop)]
pub(crate) struct Giving {
    pub alloc: Global,
}

// The reply of a turn.
fn reply(alloc: Global, place: u64) -> Result<Reply, Memory> {
    let Some(bytes) = KEYS.get(place as usize) else {
        return Ok(Reply::Few { count: 0 });
    };
    let node = NodeNo::new(0).ok_or(Memory)?;
    let name = KeyName::new(node, NameKind::Key, place.saturating_add(1)).ok_or(Memory)?;
    let mut keys: Keys = Items::new(alloc);
    keys.push((name, Octets::from_slice(alloc, bytes)?))?;
    Ok(Reply::Handed { keys })
}

impl Managers for Giving {
    /// How many turns were taken.
    type Pass = u64;

    ghost fits = { λ m p. Unit {0} };

    ghost budget = { λ m node p. 2 ^ 63 - p };

    ghost seen = { λ m node p. p };

    ghost takes = { λ m node event. Unit {0} };

    ghost answers = { λ m node p turn next. Unit {0} };

    fn ask<R: Wait>(&self, _rt: &R, pass: &mut u64, _node: NodeNo, event: Event) -> Turn {
        let place = *pass;
        *pass = place + 1;
        let reply = match reply(self.alloc, place) {
            Ok(reply) => reply,
            Err(Memory) => Reply::Memory,
        };
        Turn {
            event,
            place,
            reply,
        }
    }
}
