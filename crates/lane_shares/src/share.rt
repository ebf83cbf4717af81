ghost use Rattle.std.specs.Prelude.{◌≡◌, []};

use crate::view::View;

/// A share's place in the lane's table.
pub type Place = atomic_table::Seat<(), View>;

/// A share of the bytes issued on a lane.
#[derive(Drop)]
pub struct Share {
    pub(crate) place: Place,
    pub(crate) amount: u64,
    ghost kept: { amount ≡ place.me.0.amount },
    ghost bare: { place.me.1 ≡ [] },
}

impl Share {
    ghost use Rattle.lane_shares.specs.Names.{knows};

    /// How many of the issued bytes this share counts.
    pub fn amount(&self) -> u64
        ensures { result ≡ (knows self.now).amount }
    {
        self.amount
    }

    pub(crate) fn into_parts(self) -> (Place, u64)
        ensures { (result.0 ≡ self.place) × (result.1 ≡ self.amount) }
    {
        let Share { place, amount } = self;
        (place, amount)
    }
}
