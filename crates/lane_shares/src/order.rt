// The invariant of a lane's table, and the steps on it.
ghost use Rattle.std.specs.Prelude.{ℕ, ◌-◌};
ghost use Rattle.lane_shares.specs.Views.{issuer, with_amount, part, joined, spent};
ghost use Rattle.lane_shares.specs.Rule.{Orderly};
ghost use Rattle.lane_shares.specs.Plays.{grown, looked};

use crate::view::View;
use atomic_table::{Join, Play, Split, TableRule};
use std::marker::{Brand, PhantomData};

/// The invariant of a lane's table, and its first share.
pub struct Order;

impl TableRule<(), View, (u64, u64)> for Order {
    ghost holds = { λ key. Orderly key.1 };

    ghost first = { λ key. issuer key.0 key.0 key.1 };
}

/// The step by which the issuer issues bytes.
pub struct Issue;

impl Play<(), View> for Issue {
    ghost then = { grown };
}

/// The step that reads how many bytes are issued.
pub struct Look;

impl Play<(), View> for Look {
    ghost then = { looked };
}

/// The amount of a new share. Each call of `split` picks it.
pub trait Portion {
    ghost portion: { ℕ };
}

impl Portion for Brand {
    ghost portion = { 0 };
}

/// The step by which a share gives a part of its amount to a new share.
pub struct Cut<J> {
    portion: PhantomData<J>,
}

impl<J: Portion> Split<View> for Cut<J> {
    ghost left = { λ v. with_amount v (v.amount - J.portion) };

    ghost right = { λ v. part v J.portion };
}

/// The step by which a share takes over the amount of another, which is then used up.
pub struct Both;

impl Join<View> for Both {
    ghost both = { joined };

    ghost spent = { spent };
}
