ghost use Rattle.std.specs.Prelude.{◌≡◌, ℕ, ◌+◌, ◌-◌, ◌<◌, ◌≤◌, ◌^◌, IfOk, IfErr, List, [], ◌∷◌, ◌++◌, length, false};
ghost use mathlib.Core.List.{IsPrefix};

use crate::key::Key;
use crate::machine::Machine;
use crate::order::{Both, Compare, Cut, Draw, Look, Made, Order, Portion, Serve, ViewOf};
use crate::seat::{Place, Seat};
use atomic_table::{Refused, Table};
use qkd_base::Memory;
use std::alloc::Global;
use std::marker::Brand;
use std::snapshot::Snapshot;
use std::sync::Wait;
use std::thread::yield_now;

// How often a caller looks whether the machine is free, before it yields its processor.
const LOOKS: u32 = 4000;

/// A machine that takes one call at a time, from any number of threads. All calls stand in one history, a list of requests and
/// replies. The history is legal: it results from a chain of the machine's own turns. Each seat knows a prefix of the history,
/// and its own calls with their places in it, counted from 0. The contracts don't promise progress. They don't order the calls
/// of callers that exchanged nothing.
pub struct Turnstile<M: Machine> {
    table: Table<M, ViewOf<M>, Key<M>, Order<M>, Global>,
    ghost sized: { (table.shared.table_id.words ≡ 2) × (table.shared.table_id.slots ≡ 1) },
}

impl<M: Machine> Turnstile<M> {
    ghost use Rattle.turnstile.specs.Turns.{turn_of, Leads, IsLegal};
    ghost use Rattle.turnstile.specs.Views.{first_view, keeping, newcomer, longer, served, Stands, EachOnce, IsWhole};
    ghost use Rattle.turnstile.specs.Plays.{Enters, TurnedOn};
    ghost use Rattle.turnstile.specs.Names.{opening, all_calls, knows, Fits};

    /// Makes a turnstile at which no call was made, and a seat that may make `calls` calls. No other call allocates memory. If
    /// memory runs out, the machine comes back unchanged.
    pub fn new(
        alloc: Global,
        machine: M,
        calls: u64,
    ) -> Result<(Turnstile<M>, Seat<M>), (Memory, M)>
        requires { calls < 2 ^ 63 }
        ensures ok { IfOk result (λ t. Fits t.0 t.1 × (opening t.0 ≡ machine) × (all_calls t.0 ≡ calls) × (knows t.1 ≡ first_view machine calls)) }
        ensures err { IfErr result (λ e. e.1 ≡ machine) }
    {
        let key = Key {
            opening: Snapshot::of(&machine),
            calls,
        };
        let Ok(mut slots) = Vec::with_capacity(alloc, 1) else {
            return Err((Memory, machine));
        };
        slots.push_reserved(machine);
        match Table::new(alloc, &[0, 0], slots, &key) {
            Ok((table, place)) => Ok((Turnstile { table }, Seat { place })),
            Err(Refused { mut slots }) => {
                let machine = slots.pop().unwrap();
                slots.destroy_empty();
                Err((Memory, machine))
            }
        }
    }

    /// Waits for the caller's turn, makes the call, and returns the call's place in the history and the reply. The history up
    /// to that place is legal and begins with all that the seat had seen. The call is its last entry.
    pub fn call<R: Wait>(&self, rt: &R, seat: &mut Seat<M>, request: M::Request) -> (u64, M::Reply)
        requires fits { Fits self.now seat.old }
        requires budget { 0 < (knows seat.old).budget }
        requires takes { M.takes (M.charter (opening self.now)) request }
        ensures fits { Fits self.now seat.new }
        ensures history { (before : List _) × IsPrefix (knows seat.old).seen before × (length before ≡ result.0) × ((knows seat.new).seen ≡ before ++ (request, result.1) ∷ []) }
        ensures legal { IsLegal (turn_of M.charter M.takes M.turns) (opening self.now) (knows seat.new).seen }
        ensures own { (knows seat.new).mine ≡ (knows seat.old).mine ++ (result.0, (request, result.1)) ∷ [] }
        ensures stands { Stands (knows seat.new).mine (knows seat.new).seen }
        ensures once { EachOnce (knows seat.new).mine }
        ensures budget { (knows seat.new).budget + 1 ≡ (knows seat.old).budget }
    {
        self.await_lull();
        let shared = &self.table.shared;
        let ticket = shared.fetch_add::<Draw>(&mut seat.place, 0, 1);
        self.await_turn(rt, &mut seat.place, ticket);
        let asked = Snapshot::of(&request);
        let reply = seat.place.slot_mut(shared, 0).turn(request);
        self.serve::<Brand>(&mut seat.place, ticket, &asked, &reply);
        (ticket, reply)
    }

    // Waits a while for the machine to be free. No ticket is drawn yet, so a caller whose thread is suspended meanwhile delays
    // no other.
    fn await_lull(&self) {
        for _ in 0..2u32 {
            for _ in 0..LOOKS {
                if self.table.shared.peek(0) == self.table.shared.peek(1) {
                    return;
                }
            }
            yield_now();
        }
    }

    // Waits until the ticket is the next one to be served. The seat then holds the machine.
    fn await_turn<R: Wait>(&self, rt: &R, place: &mut Place<M>, ticket: u64)
        requires table { place.old.table_id ≡ self.now.table.shared.table_id }
        requires ticket { (place.old.me.0.tickets ≡ ticket ∷ []) × (place.old.me.0.turning ≡ false) × (place.old.me.1 ≡ []) }
        ensures table { (place.new.table_id ≡ place.old.table_id) × (place.new.id ≡ place.old.id) }
        ensures turn { Enters (turn_of M.charter M.takes M.turns) place.old.me ticket place.new.me }
    {
        for _ in rt.forever() {
            if self.table.shared.load::<Look<M>>(place, 1) == ticket {
                return;
            }
            yield_now();
        }
        unreachable!()
    }

    // Gives the machine back, and serves the next ticket.
    fn serve<J: Made<M::Request, M::Reply>>(
        &self,
        place: &mut Place<M>,
        ticket: u64,
        asked: &Snapshot<M::Request>,
        reply: &M::Reply,
    )
        requires table { place.old.table_id ≡ self.now.table.shared.table_id }
        requires made { J.made ≡ (asked.now.value, reply.now) ∷ [] }
        requires turn { TurnedOn (turn_of M.charter M.takes M.turns) (opening self.now) ticket (asked.now.value, reply.now) place.old.me }
        requires few { ticket < 2 ^ 63 }
        ensures table { (place.new.table_id ≡ place.old.table_id) × (place.new.id ≡ place.old.id) }
        ensures legal { IsLegal (turn_of M.charter M.takes M.turns) (opening self.now) place.new.me.0.seen }
        ensures turn { (place.new.me ≡ (served place.old.me.0 ticket (asked.now.value, reply.now), [])) × Stands place.new.me.0.mine place.new.me.0.seen × EachOnce place.new.me.0.mine }
    {
        let _ = asked;
        let _ = reply;
        self.table.shared.store::<Serve<J>>(place, 1, ticket + 1);
    }

    /// Makes a new seat that has seen the same history, has made no call, and takes `budget` calls of this seat's budget.
    pub fn split(&self, seat: &mut Seat<M>, budget: u64) -> Seat<M>
        requires fits { Fits self.now seat.old }
        requires budget { budget ≤ (knows seat.old).budget }
        ensures fits { Fits self.now seat.new × Fits self.now result }
        ensures old { knows seat.new ≡ keeping (knows seat.old) ((knows seat.old).budget - budget) }
        ensures new { knows result ≡ newcomer (knows seat.old) budget }
    {
        self.cut::<Brand>(seat, budget)
    }

    // `split`, where a type parameter names the new seat's budget.
    fn cut<J: Portion>(&self, seat: &mut Seat<M>, budget: u64) -> Seat<M>
        requires fits { Fits self.now seat.old }
        requires portion { budget ≡ J.portion }
        requires budget { budget ≤ (knows seat.old).budget }
        ensures fits { Fits self.now seat.new × Fits self.now result }
        ensures old { knows seat.new ≡ keeping (knows seat.old) ((knows seat.old).budget - budget) }
        ensures new { knows result ≡ newcomer (knows seat.old) budget }
    {
        let _ = budget;
        let place = self.table.shared.split_seat::<Cut<J>>(&mut seat.place);
        Seat { place }
    }

    /// Takes over another seat, with its budget, its calls and the history that it has seen.
    pub fn join(&self, seat: &mut Seat<M>, other: Seat<M>)
        requires fits { Fits self.now seat.old × Fits self.now other }
        ensures fits { Fits self.now seat.new }
        ensures longer { (knows seat.new).seen ≡ longer (knows seat.old).seen (knows other).seen }
        ensures seen { IsPrefix (knows seat.old).seen (knows seat.new).seen × IsPrefix (knows other).seen (knows seat.new).seen }
        ensures legal { IsLegal (turn_of M.charter M.takes M.turns) (opening self.now) (knows seat.new).seen }
        ensures own { (knows seat.new).mine ≡ (knows seat.old).mine ++ (knows other).mine }
        ensures stands { Stands (knows seat.new).mine (knows seat.new).seen }
        ensures once { EachOnce (knows seat.new).mine }
        ensures budget { (knows seat.new).budget ≡ (knows seat.old).budget + (knows other).budget }
    {
        let other = other.into_place();
        self.table.shared.join_seat::<Both>(&mut seat.place, other);
        self.table.shared.load::<Compare<M>>(&mut seat.place, 0);
    }

    /// Returns the machine at the end of its history. The calls that the seat has made and those that it has left must be all
    /// that the turnstile allows.
    pub fn close(self, seat: Seat<M>) -> M
        requires fits { Fits self seat }
        requires whole { (knows seat).budget + length (knows seat).mine ≡ all_calls self }
        ensures machine { Leads (turn_of M.charter M.takes M.turns) (opening self) (knows seat).seen result }
        ensures whole { IsWhole (knows seat).mine (knows seat).seen }
    {
        let Turnstile { table } = self;
        let mut closed = table.close_with(seat.into_place());
        let machine = closed.take(0);
        closed.free();
        machine
    }
}
