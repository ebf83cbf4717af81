// Managers that tell which of them was asked.
ghost use Rattle.std.specs.Prelude.{◌-◌, ◌^◌};

use kme_serve::{Managers, Turn};
use net_model::{Event, Reply};
use qkd_base::NodeNo;
use std::sync::Wait;
use std::sync::atomic::{AtomicU64, Ordering};

/// The managers of two nodes, which count what they are asked: that of node 0 always has 7 keys ready, the other one 11.
#[derive(Drop)]
pub(crate) struct Telling {
    pub first: AtomicU64,
    pub second: AtomicU64,
}

impl Managers for Telling {
    /// How many turns were taken.
    type Pass = u64;

    ghost fits = { λ m p. Unit {0} };

    ghost budget = { λ m node p. 2 ^ 63 - p };

    ghost seen = { λ m node p. p };

    ghost takes = { λ m node event. Unit {0} };

    ghost answers = { λ m node p turn next. Unit {0} };

    fn ask<R: Wait>(&self, _rt: &R, pass: &mut u64, node: NodeNo, event: Event) -> Turn {
        let place = *pass;
        *pass = place + 1;
        let (asked, count) = if node.get() == 0 {
            (&self.first, 7)
        } else {
            (&self.second, 11)
        };
        asked.fetch_add(1, Ordering::SeqCst);
        Turn {
            event,
            place,
            reply: Reply::Few { count },
        }
    }
}
