//! Rows that are counted and of which one column is summed: a sweep needs their bounds, and the number that each row adds.

ghost use Rattle.std.specs.Ordering.{nat_cmp};
ghost use Rattle.std.specs.Prelude.{◌≡◌, ◌++◌, [], ◌∷◌, IsPermutation, IsSorted, OnOk};
ghost use Rattle.tq_agg.specs.Changes.{bounds_of, totals_after, weights, HaveSmallWeights};

use crate::endpoints::{count_at, set_totals};
use crate::sweeping::{Place, Timeline};
use std::alloc::{AllocError, Global};
use tq_base::{Bound, Period};

// A bound at which a row begins or ends, and the number that the row adds to the sum.
#[derive(Clone, Copy)]
pub(crate) struct Change {
    pub(crate) at: Bound,
    pub(crate) weight: i64,
}

// The starts and the ends of rows.
#[derive(Drop)]
pub(crate) struct Changes {
    pub(crate) starts: Vec<Change>,
    pub(crate) ends: Vec<Change>,
}

impl Changes {
    // Empty lists.
    pub(crate) fn none(alloc: Global) -> Changes
        ensures starts { result.starts.items ≡ [] }
        ensures ends { result.ends.items ≡ [] }
    {
        Changes {
            starts: Vec::new(alloc),
            ends: Vec::new(alloc),
        }
    }

    // Appends the start and the end of the period, with the number that its row adds.
    pub(crate) fn add(&mut self, period: &Period, weight: i64) -> Result<(), AllocError>
        ensures starts { OnOk result (self.new.starts.items ≡ self.old.starts.items ++ record { at = period.now.start; weight = weight } ∷ []) }
        ensures ends { OnOk result (self.new.ends.items ≡ self.old.ends.items ++ record { at = period.now.end; weight = weight } ∷ []) }
    {
        self.starts.push(Change {
            at: Bound::at(period.start),
            weight,
        })?;
        self.ends.push(Change {
            at: period.end,
            weight,
        })?;
        Ok(())
    }

    // Sorts both lists by their bounds.
    pub(crate) fn sort(&mut self)
        ensures starts { IsPermutation self.old.starts.items self.new.starts.items }
        ensures starts_sorted { IsSorted nat_cmp (bounds_of self.new.starts.items) }
        ensures ends { IsPermutation self.old.ends.items self.new.ends.items }
        ensures ends_sorted { IsSorted nat_cmp (bounds_of self.new.ends.items) }
    {
        self.starts.sort_unstable_by_key(|change| change.at);
        self.ends.sort_unstable_by_key(|change| change.at);
    }
}

// The sum of the numbers of the changes.
fn weight_in(changes: &[Change]) -> i128
    requires { HaveSmallWeights changes.now }
    ensures { result ≡ weights changes.now }
{
    let mut weight: i128 = 0;
    'changes: for change in changes {
        weight += i128::from(change.weight);
    }
    weight
}

impl Timeline for Changes {
    ghost starts = { λ changes. bounds_of changes.starts.items };

    ghost ends = { λ changes. bounds_of changes.ends.items };

    ghost totals = { λ changes. totals_after changes.starts.items changes.ends.items };

    ghost fits = { λ changes. HaveSmallWeights changes.starts.items × HaveSmallWeights changes.ends.items };

    fn start(&self, place: usize) -> Option<Bound> {
        match self.starts.get(place) {
            Some(change) => Some(change.at),
            None => None,
        }
    }

    fn end(&self, place: usize) -> Option<Bound> {
        match self.ends.get(place) {
            Some(change) => Some(change.at),
            None => None,
        }
    }

    fn first_totals(&self, next: &mut Vec<i128>) -> Result<(), AllocError> {
        set_totals(next, &[0, 0])
    }

    fn next_totals(
        &self,
        from: Place,
        to: Place,
        current: &[i128],
        next: &mut Vec<i128>,
    ) -> Result<(), AllocError> {
        let begun = weight_in(&self.starts[from.begun..to.begun]);
        let ended = weight_in(&self.ends[from.ended..to.ended]);
        set_totals(next, &[count_at(to), current[1] + (begun - ended)])
    }
}
