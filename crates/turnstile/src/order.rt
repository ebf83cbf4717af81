// The invariant of a turnstile's table, and the steps on it.
ghost use Rattle.turnstile.specs.Turns.{turn_of};
ghost use Rattle.std.specs.Prelude.{ℕ, ◌-◌, List, []};
ghost use Rattle.turnstile.specs.Views.{first_view, keeping, newcomer, joined, spent};
ghost use Rattle.turnstile.specs.Rule.{Orderly};
ghost use Rattle.turnstile.specs.Plays.{drawn, looked, turned, compared};

use crate::key::Key;
use crate::machine::Machine;
use crate::view::View;
use atomic_table::{Join, Play, Split, TableRule};
use std::marker::{Brand, PhantomData};

/// What a seat at a turnstile of this machine knows.
pub type ViewOf<M> = View<M, <M as Machine>::Request, <M as Machine>::Reply>;

/// The invariant of a turnstile's table, and its first seat.
pub struct Order<M> {
    machine: PhantomData<M>,
}

impl<M: Machine> TableRule<M, ViewOf<M>, Key<M>> for Order<M> {
    ghost holds = { λ key. Orderly (turn_of M.charter M.takes M.turns) key.opening.value key.calls };

    ghost first = { λ key. first_view key.opening.value key.calls };
}

/// The step that draws a ticket.
pub struct Draw;

impl<M, Q, A> Play<M, View<M, Q, A>> for Draw {
    ghost then = { drawn };
}

/// The step that reads which ticket is served next.
pub struct Look<M> {
    machine: PhantomData<M>,
}

impl<M: Machine> Play<M, ViewOf<M>> for Look<M> {
    ghost then = { looked (turn_of M.charter M.takes M.turns) };
}

/// The call that a turn made, as a list of one. Each call of `serve` picks it.
pub trait Made<Q, A> {
    ghost made: { List (Q × A) };
}

impl<Q, A> Made<Q, A> for Brand {
    ghost made = { [] };
}

/// The step that ends a turn: the next ticket is served.
pub struct Serve<J> {
    made: PhantomData<J>,
}

impl<M, Q, A, J: Made<Q, A>> Play<M, View<M, Q, A>> for Serve<J> {
    ghost then = { turned J.made };
}

/// The step after two seats were joined: the seat keeps the longer of the two prefixes of the history that it knows.
pub struct Compare<M> {
    machine: PhantomData<M>,
}

impl<M: Machine> Play<M, ViewOf<M>> for Compare<M> {
    ghost then = { compared (turn_of M.charter M.takes M.turns) };
}

/// How many calls go to a new seat. Each call of `split` picks it.
pub trait Portion {
    ghost portion: { ℕ };
}

impl Portion for Brand {
    ghost portion = { 0 };
}

/// The step by which a seat gives a part of its budget to a new seat.
pub struct Cut<J> {
    portion: PhantomData<J>,
}

impl<M, Q, A, J: Portion> Split<View<M, Q, A>> for Cut<J> {
    ghost left = { λ v. keeping v (v.budget - J.portion) };

    ghost right = { λ v. newcomer v J.portion };
}

/// The step by which a seat takes over the calls and the budget of another.
pub struct Both;

impl<M, Q, A> Join<View<M, Q, A>> for Both {
    ghost both = { joined };

    ghost spent = { spent };
}
