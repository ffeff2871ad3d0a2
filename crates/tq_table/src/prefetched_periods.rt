//! The periods of the rows of keys, read in batches of some thousands.

ghost use Rattle.std.specs.Prelude.{◌≡◌, ◌<◌, ◌≤◌, ◌+◌, List, All, IfOk, OnOk, length, slice_range};
ghost use Rattle.tq_base.specs.declared.period.Period.{Period};
ghost use Rattle.tq_base.specs.declared.sort_input.SortKey.{SortKey};
ghost use Rattle.tq_table.specs.Prefetching.{periods_of_keys, ArePrefetched};

use std::alloc::{AllocError, Global};
use tq_base::{Period, SortKey};

// The number of keys in a batch. A larger group is one batch.
const PREFETCH_BATCH: usize = 4_096;

/// The periods of the rows of consecutive keys. Sorted keys refer to rows anywhere in memory; a short loop over some
/// thousands of them lets the processor overlap the cache misses, and the periods stay in the cache.
#[derive(Drop)]
pub(crate) struct PrefetchedPeriods {
    from: usize,
    periods: Vec<Period>,
}

// The periods of the keys' rows, taken from those of all rows.
fn periods_at(
    alloc: Global,
    periods: &[Period],
    keys: &[SortKey],
) -> Result<Vec<Period>, AllocError>
    requires { All (λ k. k.row < length periods.now) keys.now }
    ensures { IfOk result (λ chosen. chosen.items ≡ periods_of_keys periods.now keys.now) }
{
    let mut chosen = Vec::with_capacity(alloc, keys.len())?;
    'keys: for key in keys {
        chosen.push_reserved(periods[key.row as usize]);
    }
    Ok(chosen)
}

impl PrefetchedPeriods {
    /// No periods yet.
    pub(crate) fn new(alloc: Global) -> PrefetchedPeriods
        ensures from { result.from ≡ 0 }
        ensures ahead { (periods : List Period) → (keys : List SortKey) → ArePrefetched periods keys result }
    {
        PrefetchedPeriods {
            from: 0,
            periods: Vec::new(alloc),
        }
    }

    /// Reads the periods of the keys from `start` to `end`, and of some keys after these, unless they were read before.
    /// `periods` are those of all rows. `AllocError` if an allocation failed.
    pub(crate) fn prefetch_range(
        &mut self,
        alloc: Global,
        periods: &[Period],
        keys: &[SortKey],
        start: usize,
        end: usize,
    ) -> Result<(), AllocError>
        requires stand { All (λ k. k.row < length periods.now) keys.now }
        requires order { start ≤ end }
        requires within { end ≤ length keys.now }
        requires from { self.old.from ≤ start }
        requires ahead { ArePrefetched periods.now keys.now self.old }
        ensures from { OnOk result (self.new.from ≤ start) }
        ensures there { OnOk result (end ≤ self.new.from + length self.new.periods.items) }
        ensures ahead { OnOk result (ArePrefetched periods.now keys.now self.new) }
    {
        if end - self.from <= self.periods.len() {
            return Ok(());
        }
        let until = start
            .saturating_add(PREFETCH_BATCH)
            .min(keys.len())
            .max(end);
        self.periods = periods_at(alloc, periods, &keys[start..until])?;
        self.from = start;
        Ok(())
    }

    /// The periods of the keys from `start` to `end`, which were read before.
    pub(crate) fn between(&self, start: usize, end: usize) -> &[Period]
        requires from { self.now.from ≤ start }
        requires order { start ≤ end }
        requires there { end ≤ self.now.from + length self.now.periods.items }
        ensures { (periods : List Period) → (keys : List SortKey) → ArePrefetched periods keys self.now → result.now ≡ slice_range (periods_of_keys periods keys) start end }
    {
        &self.periods[start - self.from..end - self.from]
    }
}
