// Bounds of ranges of values.

ghost use Rattle.std.specs.Prelude.{◌<◌, ◌≤◌, All, IfOk};

use std::alloc::{AllocError, Global};
use tq_base::{Relation, Row, normalized_key};
use tq_table::{ResultRows, coalesce, is_below};

// About this many rows are sampled for each range.
const SAMPLES: usize = 64;

// There are at most 2^`HALVES` ranges.
const HALVES: usize = 7;

// A bound: the normalized key of its first value, and its place in the sampled rows.
#[derive(Clone, Copy)]
struct RangeBound {
    prefix: u128,
    line: usize,
}

/// Sampled rows in order, and which of them bound ranges of about equal numbers of rows.
#[derive(Drop)]
pub(crate) struct RangeBounds<'a> {
    lines: ResultRows<'a>,
    bounds: Vec<RangeBound>,
}

// The numbers of about `wanted` of the rows.
fn some_numbers(alloc: Global, len: usize, wanted: usize) -> Result<Vec<u32>, AllocError>
    requires { len ≤ 4294967295 }
    ensures { IfOk result (λ numbers. All (λ number. number < len) numbers.items) }
{
    let mut numbers = Vec::new(alloc);
    'numbers: for number in (0..len).step_by(len / wanted.max(1) + 1) {
        if number < len {
            numbers.push(number as u32)?;
        }
    }
    Ok(numbers)
}

// The normalized key of the row's first value.
fn prefix(row: &Row<'_>) -> u128 {
    normalized_key(row.value(0))
}

/// Bounds of `ranges` ranges of the rows.
pub(crate) fn bounds_of<'a>(
    alloc: Global,
    rows: &'a Relation<'_>,
    ranges: usize,
) -> Result<RangeBounds<'a>, AllocError> {
    let numbers = some_numbers(alloc, rows.len(), ranges.min(64) * SAMPLES)?;
    let lines = coalesce(alloc, rows.take_rows_ref(alloc, &numbers)?)?;
    let mut bounds = Vec::with_capacity(alloc, ranges)?;
    'ranges: for range in 1..ranges {
        let line = lines.len() / ranges * range;
        bounds.push(RangeBound {
            prefix: prefix(&lines.row(line)),
            line,
        })?;
    }
    Ok(RangeBounds { lines, bounds })
}

impl RangeBounds<'_> {
    // Whether the row, whose first value has this normalized key, is below the bound.
    fn is_above(&self, bound: &RangeBound, prefix: u128, row: &Row<'_>) -> bool {
        prefix < bound.prefix
            || prefix == bound.prefix && is_below(row, &self.lines.row(bound.line))
    }

    /// The range of the row: how many bounds are not above it.
    pub(crate) fn range_of(&self, row: &Row<'_>) -> u8 {
        let prefix = prefix(row);
        let mut low = 0;
        let mut high = self.bounds.len();
        'halves: for _ in 0..HALVES {
            if low >= high {
                break;
            }
            let middle = low + (high - low) / 2;
            match self.bounds.get(middle) {
                Some(bound) if self.is_above(bound, prefix, row) => high = middle,
                _ => low = middle + 1,
            }
        }
        low.min(255) as u8
    }
}
