ghost use Rattle.std.specs.Prelude.{◌≡◌, []};
ghost use Rattle.turnstile.specs.Views.{resting};

use crate::machine::Machine;
use crate::order::ViewOf;

/// A caller's place in the table.
pub type Place<M> = atomic_table::Seat<M, ViewOf<M>>;

/// The right to some calls, with what is known of the history. It occupies no memory.
pub struct Seat<M: Machine> {
    pub(crate) place: Place<M>,
    ghost rests: { place.me ≡ (resting place.me.0, []) },
}

impl<M: Machine> Seat<M> {
    pub(crate) fn into_place(self) -> Place<M>
        ensures { result ≡ self.place }
    {
        let Seat { place } = self;
        place
    }
}

impl<M: Machine> Drop for Seat<M> {
    fn drop(self) {
        let Self { place: _ } = self;
    }
}
