// Range ids: the range of each row by its values, found by several workers.

ghost use Rattle.std.specs.Prelude.{◌≤◌};

use crate::range_bounds::{RangeBounds, bounds_of};
use crate::workers::Workers;
use std::alloc::{AllocError, Global};
use std::thread::Threads;
use tq_base::Relation;
use tq_run::{Gate, Work, run_with};

// The ranges of rows, in pieces of equal numbers of rows.
#[derive(Drop)]
struct RangeIds<'p, 'a, 'l> {
    alloc: Global,
    rows: &'p Relation<'a>,
    bounds: &'p RangeBounds<'l>,
    pieces: u32,
    ghost some: { 1 ≤ pieces },
    ghost few: { pieces ≤ 64 },
}

impl Work for RangeIds<'_, '_, '_> {
    type Out = Vec<u8>;

    ghost count = { λ w. w.pieces };

    ghost relates = { λ _ _ _. Unit {0} };

    fn pieces(&self) -> u32 {
        self.pieces
    }

    fn run(&self, i: u32) -> Result<Vec<u8>, AllocError> {
        let len = self.rows.len();
        let pieces = self.pieces as usize;
        let start = len * i as usize / pieces;
        let end = len * (i as usize + 1) / pieces;
        let mut ranges = Vec::with_capacity(self.alloc, end.saturating_sub(start))?;
        'rows: for number in start..end {
            ranges.push(self.bounds.range_of(&self.rows.row(number)))?;
        }
        Ok(ranges)
    }
}

// The ids of all pieces, one after the other.
fn put_together(alloc: Global, pieces: Vec<Vec<u8>>) -> Result<Vec<u8>, AllocError> {
    let mut all = Vec::new(alloc);
    'pieces: for mut piece in pieces {
        all.append(&mut piece)?;
    }
    Ok(all)
}

// The range of each row by the bounds.
fn ids_by_bounds<R: Threads + Sync, G: Gate + Sync>(
    workers: &Workers<'_, R, G>,
    rows: &Relation<'_>,
    bounds: &RangeBounds<'_>,
    ranges: u32,
) -> Result<Vec<u8>, AllocError>
    requires ranges { (1 ≤ ranges) × (ranges ≤ 64) }
{
    let alloc = workers.alloc;
    let work = RangeIds {
        alloc,
        rows,
        bounds,
        pieces: ranges,
    };
    put_together(
        alloc,
        run_with(workers.rt, alloc, workers.count, &work, workers.gate)?,
    )
}

/// The range of each row, so that ranges have about equal numbers of rows, and rows of a higher range are not below rows of a
/// lower one. No clause promises this: callers compare the ranges.
pub(crate) fn ids_by_range<R: Threads + Sync, G: Gate + Sync>(
    workers: &Workers<'_, R, G>,
    rows: &Relation<'_>,
    ranges: u32,
) -> Result<Vec<u8>, AllocError>
    requires ranges { (1 ≤ ranges) × (ranges ≤ 64) }
{
    let alloc = workers.alloc;
    let bounds = bounds_of(alloc, rows, ranges as usize)?;
    ids_by_bounds(workers, rows, &bounds, ranges)
}
