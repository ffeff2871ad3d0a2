//! Rows that are only counted: the bounds at which they begin and end are all that a sweep needs.

ghost use Rattle.std.specs.Ordering.{nat_cmp};
ghost use Rattle.std.specs.Prelude.{◌≡◌, ◌++◌, ◌-ℤ◌, ℕ, pos, [], ◌∷◌, ⊤, IfOk, IsPermutation, IsSorted, OnOk};
ghost use Rattle.tq_agg.specs.declared.summands.Summand.TheVariants.{One};
ghost use Rattle.tq_agg.specs.Endpoints.{count_upto, AreEndpoints};
ghost use Rattle.tq_agg.specs.Totals.{added, held_weight};

use crate::sweeping::{Place, Timeline};
use std::alloc::{AllocError, Global};
use tq_base::{Bound, Period, Relation};

// The bounds at which rows begin, and those at which they end.
#[derive(Drop)]
pub(crate) struct Endpoints {
    pub(crate) starts: Vec<Bound>,
    pub(crate) ends: Vec<Bound>,
}

impl Endpoints {
    // Empty lists.
    pub(crate) fn none(alloc: Global) -> Endpoints
        ensures starts { result.starts.items ≡ [] }
        ensures ends { result.ends.items ≡ [] }
    {
        Endpoints {
            starts: Vec::new(alloc),
            ends: Vec::new(alloc),
        }
    }

    // Appends the start and the end of the period.
    pub(crate) fn add(&mut self, period: &Period) -> Result<(), AllocError>
        ensures starts { OnOk result (self.new.starts.items ≡ self.old.starts.items ++ period.now.start ∷ []) }
        ensures ends { OnOk result (self.new.ends.items ≡ self.old.ends.items ++ period.now.end ∷ []) }
    {
        self.starts.push(Bound::at(period.start))?;
        self.ends.push(period.end)?;
        Ok(())
    }

    // Appends the bounds of the other lists.
    pub(crate) fn add_all(&mut self, other: &Endpoints) -> Result<(), AllocError>
        ensures starts { OnOk result (self.new.starts.items ≡ self.old.starts.items ++ other.now.starts.items) }
        ensures ends { OnOk result (self.new.ends.items ≡ self.old.ends.items ++ other.now.ends.items) }
    {
        self.starts.extend_from_slice(&other.starts)?;
        self.ends.extend_from_slice(&other.ends)?;
        Ok(())
    }

    // Sorts both lists.
    pub(crate) fn sort(&mut self)
        ensures starts { IsPermutation self.old.starts.items self.new.starts.items }
        ensures starts_sorted { IsSorted nat_cmp self.new.starts.items }
        ensures ends { IsPermutation self.old.ends.items self.new.ends.items }
        ensures ends_sorted { IsSorted nat_cmp self.new.ends.items }
    {
        self.starts.sort_unstable();
        self.ends.sort_unstable();
    }
}

// The bounds of the rows that overlap the window, cut to it and sorted.
pub(crate) fn endpoints_of(
    alloc: Global,
    rows: &Relation<'_>,
    window: &Period,
) -> Result<Endpoints, AllocError>
    ensures counts { IfOk result (λ endpoints. (t : ℕ) → count_upto endpoints.starts.items endpoints.ends.items t ≡ added (held_weight One window.now t) rows.now.items) }
    ensures starts { IfOk result (λ endpoints. AreEndpoints window.now endpoints.starts.items) }
    ensures ends { IfOk result (λ endpoints. AreEndpoints window.now endpoints.ends.items) }
{
    let mut endpoints = Endpoints::none(alloc);
    'rows: for period in rows.periods() {
        let Some(shared) = period.overlap(window) else {
            continue;
        };
        endpoints.add(&shared)?;
    }
    endpoints.sort();
    Ok(endpoints)
}

// The number of rows that have begun and not ended.
pub(crate) fn count_at(place: Place) -> i128
    ensures { result ≡ pos place.begun -ℤ pos place.ended }
{
    place.begun as i128 - place.ended as i128
}

// Replaces the list by the totals.
pub(crate) fn set_totals(list: &mut Vec<i128>, totals: &[i128]) -> Result<(), AllocError>
    ensures { OnOk result (list.new.items ≡ totals.now) }
{
    list.clear();
    list.extend_from_slice(totals)?;
    Ok(())
}

impl Timeline for Endpoints {
    ghost starts = { λ endpoints. endpoints.starts.items };

    ghost ends = { λ endpoints. endpoints.ends.items };

    ghost totals = { λ endpoints begun ended. (pos begun -ℤ pos ended) ∷ [] };

    ghost fits = { λ endpoints. ⊤ };

    fn start(&self, place: usize) -> Option<Bound> {
        self.starts.get(place).copied()
    }

    fn end(&self, place: usize) -> Option<Bound> {
        self.ends.get(place).copied()
    }

    fn first_totals(&self, next: &mut Vec<i128>) -> Result<(), AllocError> {
        set_totals(next, &[0])
    }

    fn next_totals(
        &self,
        _from: Place,
        to: Place,
        _current: &[i128],
        next: &mut Vec<i128>,
    ) -> Result<(), AllocError> {
        set_totals(next, &[count_at(to)])
    }
}
