// Claims of piece numbers, each number once, on one shared word.
ghost use Rattle.std.specs.Prelude.{◌≡◌, ◌<◌, ◌≤◌, [], true, false, IfOk, IsOk, IfSome, IfNone, length};
ghost use Rattle.tq_run.specs.Counting.{EachOnce};
ghost use Rattle.tq_run.specs.ClaimRule.{ClaimsValue, ClaimantValue, Claimed, ClaimRecords, IsClaimantOf, opening_view, added_view, after_split, after_join, spent_view, after_taking, after_exhausted};

use crate::seat_view::SeatView;
use atomic_table::{Join, Play, Seat, Split, Table, TableRule};
use std::alloc::{AllocError, Global};
use std::marker::Model;

// The rule of the shared word.
struct ClaimRule;

impl TableRule<(), SeatView, u32> for ClaimRule {
    ghost holds = { Claimed };

    ghost first = { opening_view };
}

// A claim of the next number.
struct Claim;

impl Play<(), SeatView> for Claim {
    ghost then = { ClaimRecords };
}

// A seat in addition to the first one: how it is split off and joined.
struct OtherSeat;

impl Split<SeatView> for OtherSeat {
    ghost left = { after_split };

    ghost right = { added_view };
}

impl Join<SeatView> for OtherSeat {
    ghost both = { after_join };

    ghost spent = { spent_view };
}

/// The numbers of pieces, from 0. Each is given once, to the claimant that asks next. Threads share it by `&`.
#[derive(Drop)]
pub struct Claims {
    table: Table<(), SeatView, u32, ClaimRule, Global>,
    pieces: u32,
}

impl Model for Claims {
    ghost Value = { ClaimsValue };

    ghost view = { λ c. record { word = c.table.shared.table_id; pieces = c.pieces } };

    ghost invariant = { λ c. (c.table.shared.key ≡ c.pieces)
        × (c.table.shared.table_id.words ≡ 1)
        × (c.table.shared.table_id.slots ≡ 0) };
}

/// The right to claim numbers. It has no bytes and can move to another thread.
#[derive(Drop)]
pub struct Claimant {
    seat: Seat<(), SeatView>,
}

impl Model for Claimant {
    ghost Value = { ClaimantValue };

    ghost view = { λ c. record { word = c.seat.table_id; knows = c.seat.me.0 } };

    ghost invariant = { λ c. (c.seat.me.1 ≡ []) × (c.seat.me.0.spent ≡ false) };
}

impl Claims {
    /// Claims of this many pieces, with their first claimant. `AllocError` if an allocation failed.
    pub fn new(alloc: Global, pieces: u32) -> Result<(Claims, Claimant), AllocError>
        ensures pieces { IfOk result (λ r. r.0.pieces ≡ pieces) }
        ensures of { IfOk result (λ r. IsClaimantOf r.0 r.1) }
        ensures first { IfOk result (λ r. r.1.knows ≡ opening_view pieces) }
    {
        let (table, seat) = Table::of_words(alloc, &[0], &pieces)?;
        Ok((Claims { table, pieces }, Claimant { seat }))
    }

    /// One more claimant, at most 15 in addition to the first. It allocates nothing and always succeeds.
    pub fn split(&self, first: &mut Claimant) -> Result<Claimant, AllocError>
        requires of { IsClaimantOf self.now first.old }
        requires first { first.old.knows.first ≡ true }
        requires few { first.old.knows.splits < 15 }
        ensures succeeds { IsOk result }
        ensures of { IsClaimantOf self.now first.new }
        ensures counted { first.new.knows ≡ after_split first.old.knows }
        ensures new_of { IfOk result (λ c. IsClaimantOf self.now c) }
        ensures new_knows { IfOk result (λ c. c.knows ≡ added_view first.old.knows) }
    {
        let seat = self.table.shared.split_seat::<OtherSeat>(&mut first.seat);
        Ok(Claimant { seat })
    }

    /// The next number, which no other claimant gets, or `None` if all numbers of pieces are taken. One atomic
    /// addition; it allocates nothing and never waits.
    pub fn take(&self, by: &mut Claimant) -> Option<u32>
        requires of { IsClaimantOf self.now by.old }
        requires not_exhausted { by.old.knows.exhausted ≡ false }
        ensures of { IsClaimantOf self.now by.new }
        ensures piece { IfSome result (λ n. n < self.now.pieces) }

        // The number is at least the number of those that this claimant took before.
        ensures above { IfSome result (λ n. length by.old.knows.taken ≤ n) }
        ensures listed { IfSome result (λ n. by.new.knows ≡ after_taking by.old.knows n) }
        ensures none { IfNone result (by.new.knows ≡ after_exhausted by.old.knows) }
    {
        let n = self.table.shared.fetch_add::<Claim>(&mut by.seat, 0, 1);
        if n < u64::from(self.pieces) {
            Some(n as u32)
        } else {
            None
        }
    }

    /// Joins another claimant to the first one, which gets its numbers. It allocates nothing.
    pub fn join(&self, first: &mut Claimant, other: Claimant)
        requires of { IsClaimantOf self.now first.old }
        requires other_of { other.word ≡ self.now.word }
        requires first { first.old.knows.first ≡ true }
        ensures of { IsClaimantOf self.now first.new }
        ensures joined { first.new.knows ≡ after_join first.old.knows other.knows }
    {
        let Claimant { seat } = other;
        self.table
            .shared
            .join_seat::<OtherSeat>(&mut first.seat, seat);
    }

    /// Ends the claims. It requires that the first claimant got `None` and has joined all others; then its list has
    /// each number of a piece exactly once. It allocates nothing.
    pub fn close(self, first: Claimant)
        requires of { first.word ≡ self.word }
        requires first { first.knows.first ≡ true }
        requires exhausted { first.knows.exhausted ≡ true }
        requires joined { first.knows.joins ≡ first.knows.splits }
        ensures { EachOnce first.knows.taken self.pieces }
    {
        let Claims { table, pieces: _ } = self;
        let Claimant { seat } = first;
        table.close_with(seat).free();
    }
}
