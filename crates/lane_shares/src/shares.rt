// The table that all shares of one lane use.
ghost use Rattle.std.specs.Prelude.{◌≡◌, ◌+◌, ◌-◌, ◌<◌, ◌≤◌, ◌^◌, IfOk, [], true, false};

use crate::order::{Both, Cut, Issue, Look, Order, Portion};
use crate::share::Share;
use crate::view::View;
use atomic_table::Table;
use qkd_base::Memory;
use std::alloc::Global;
use std::marker::Brand;

/// The count of the bytes issued on one lane, at most a cap, divided into shares that threads hold. The amounts of all shares
/// add up to the count, where the shares that were dropped still count. One share is the issuer. It alone raises the count, so
/// it knows the count.
#[derive(Drop)]
pub struct Shares {
    table: Table<(), View, (u64, u64), Order, Global>,
    ghost sized: { (table.shared.table_id.words ≡ 1) × (table.shared.table_id.slots ≡ 0) },
}

impl Shares {
    ghost use Rattle.lane_shares.specs.Views.{issuer, issuer_with, with_amount, part, joined};
    ghost use Rattle.lane_shares.specs.Names.{lane_cap, knows, Fits};

    /// Opens the count at `total` bytes, under the cap `cap`. The issuer's share has all of them. No other call allocates
    /// memory.
    pub fn open(alloc: Global, total: u64, cap: u64) -> Result<(Shares, Share), Memory>
        requires { total ≤ cap }
        ensures { IfOk result (λ t. Fits t.0 t.1 × (lane_cap t.0 ≡ cap) × (knows t.1 ≡ issuer total total cap)) }
    {
        let (table, place) = Table::of_words(alloc, &[total], &(total, cap))?;
        let amount = total;
        Ok((Shares { table }, Share { place, amount }))
    }

    /// Issues `n` more bytes to the issuer. The new count must be at most the cap.
    pub fn issue(&self, share: &mut Share, n: u64)
        requires fits { Fits self.now share.old }
        requires issuer { (knows share.old).issues ≡ true }
        requires cap { (knows share.old).issued + n ≤ lane_cap self.now }
        ensures fits { Fits self.now share.new }
        ensures grown { knows share.new ≡ issuer_with (knows share.old) n }
    {
        self.table.shared.fetch_add::<Issue>(&mut share.place, 0, n);
        share.amount += n;
    }

    /// Moves `n` bytes of a share to a new share, which isn't the issuer.
    pub fn split(&self, share: &mut Share, n: u64) -> Share
        requires fits { Fits self.now share.old }
        requires amount { n ≤ (knows share.old).amount }
        ensures fits { Fits self.now share.new × Fits self.now result }
        ensures old { knows share.new ≡ with_amount (knows share.old) ((knows share.old).amount - n) }
        ensures new { knows result ≡ part (knows share.old) n }
    {
        self.cut::<Brand>(share, n)
    }

    // `split`, where a type parameter names the amount of the new share.
    fn cut<J: Portion>(&self, share: &mut Share, n: u64) -> Share
        requires fits { Fits self.now share.old }
        requires portion { n ≡ J.portion }
        requires amount { n ≤ (knows share.old).amount }
        ensures fits { Fits self.now share.new × Fits self.now result }
        ensures old { knows share.new ≡ with_amount (knows share.old) ((knows share.old).amount - n) }
        ensures new { knows result ≡ part (knows share.old) n }
    {
        let place = self.table.shared.split_seat::<Cut<J>>(&mut share.place);
        share.amount -= n;
        Share { place, amount: n }
    }

    /// Adds the amount of another share, which isn't the issuer, to this one. The other share is used up.
    pub fn join(&self, share: &mut Share, other: Share)
        requires fits { Fits self.now share.old × Fits self.now other }
        requires other { (knows other).issues ≡ false }
        ensures fits { Fits self.now share.new }
        ensures joined { knows share.new ≡ joined (knows share.old) (knows other) }
    {
        let (place, amount) = other.into_parts();
        self.table.shared.join_seat::<Both>(&mut share.place, place);
        self.table.shared.load::<Look>(&mut share.place, 0);
        share.amount += amount;
    }

    /// How many bytes are issued: at least the share's amount and at most the cap. For the issuer it is exactly the number that
    /// it knows.
    pub fn look(&self, share: &mut Share) -> u64
        requires fits { Fits self.now share.old }
        ensures fits { Fits self.now share.new }
        ensures same { knows share.new ≡ knows share.old }
        ensures bounds { ((knows share.old).amount ≤ result) × (result ≤ lane_cap self.now) }
        ensures issuer { (knows share.old).issues ≡ true → result ≡ (knows share.old).issued }
    {
        let shared = &self.table.shared;
        shared.load::<Look>(&mut share.place, 0)
    }
}
