//! Counts of the rows of each value of one column that has few values. The rows are not sorted: each goes into the bucket of its
//! value, which its normalized key prefix determines.

ghost use Rattle.std.specs.Prelude.{◌≡◌, ◌+◌, ◌+ℤ◌, ◌<◌, ◌≤◌, ◌&&◌, ℕ, ℤ, pos, true, [], ◌∷◌, IfOk, IfSome, List, OnOk, if◌then◌else◌, length, nat_lt, slice_index_or};
ghost use Rattle.std.specs.List.{count_by};
ghost use Rattle.tq_base.specs.declared.period.Period.{Period};
ghost use Rattle.tq_base.specs.declared.value.Value.{Value};
ghost use Rattle.tq_base.specs.Fragments.{at, copies, occurrences};
ghost use Rattle.tq_base.specs.RowValues.{value_at};
ghost use Rattle.tq_base.specs.Periods.{holds};
ghost use Rattle.tq_base.specs.Relations.{column_of};
ghost use Rattle.tq_condition.specs.Ordinary.{HasInside, IsEmptyOutside};
ghost use Rattle.tq_agg.specs.declared.buckets.Bucket.{Bucket};
ghost use Rattle.tq_agg.specs.Buckets.{counted, value_of, AreCut, AreRanked, IsTally};
ghost use Rattle.tq_agg.specs.Changes.{weighed, AreChangesCut};
ghost use Rattle.tq_agg.specs.Endpoints.{count_upto, AreInside};
ghost use Rattle.tq_agg.specs.Grouping.{grouped_rows, same_row};
ghost use Rattle.tq_agg.specs.Totals.{shown_copies};

use crate::changes::Changes;
use crate::endpoints::Endpoints;
use crate::sweeping::{GroupKey, Scratch, sweep};
use std::alloc::{AllocError, Global};
use tq_base::{ColumnView, Period, Relation, Rows, is_exact, normalized_key};

// The most values: the prefix of each row is compared with those of all buckets.
const MOST: usize = 64;

// The rows of one value: the number of one of them, and the bounds of all. If rows are only counted, `endpoints` has the bounds. If
// a column is summed, `changes` has them with the number that each row adds. The other lists are empty and own no memory.
#[derive(Drop)]
pub(crate) struct Bucket {
    pub(crate) row: u32,
    pub(crate) endpoints: Endpoints,
    pub(crate) changes: Changes,
}

/// A partial aggregate: rows in the buckets of their values, and the normalized key prefixes of the values. Both lists are in
/// the order of the prefixes.
#[derive(Drop)]
pub struct Tally {
    pub(crate) ranks: Vec<u128>,
    pub(crate) list: Vec<Bucket>,
    // Whether every row is in a bucket.
    pub(crate) is_whole: bool,
}

// The number of prefixes below the given one. All are compared, so there is no branch that the processor could predict wrongly.
pub(crate) fn place_of(ranks: &[u128], prefix: u128) -> usize
    ensures { result ≡ count_by (λ r. nat_lt r prefix) ranks.now }
{
    let mut place = 0;
    'ranks: for other in ranks {
        place += usize::from(*other < prefix);
    }
    place
}

// The place of the bucket of the row's value. A new bucket is inserted if there is none yet. `None` if there would be too many, or
// the prefix does not determine the value.
pub(crate) fn bucket_at(
    alloc: Global,
    column: &ColumnView<'_>,
    row: u32,
    buckets: &mut Tally,
) -> Result<Option<usize>, AllocError>
    requires { AreRanked column.now buckets.old.ranks.items buckets.old.list.items }
    ensures ranked { IfOk result (λ found. IfSome found (λ _. AreRanked column.now buckets.new.ranks.items buckets.new.list.items)) }
    ensures cut { (window : Period) → AreCut window buckets.old.list.items → IfOk result (λ found. IfSome found (λ _. AreCut window buckets.new.list.items)) }
    ensures within { IfOk result (λ found. IfSome found (λ place. place < length buckets.new.list.items)) }
    ensures value { (d : Bucket) → IfOk result (λ found. IfSome found (λ place. value_of column.now (slice_index_or buckets.new.list.items place d) ≡ value_at column.now row)) }
    ensures counts { IfOk result (λ found. IfSome found (λ _. (t : ℕ) (key : List Value) → counted column.now t key buckets.new.list.items ≡ counted column.now t key buckets.old.list.items)) }
    ensures changes_cut { (window : Period) → AreChangesCut window buckets.old.list.items → IfOk result (λ found. IfSome found (λ _. AreChangesCut window buckets.new.list.items)) }
    ensures weights { IfOk result (λ found. IfSome found (λ _. (f : ℤ → ℤ) (t : ℕ) (key : List Value) → weighed f column.now t key buckets.new.list.items ≡ weighed f column.now t key buckets.old.list.items)) }
{
    let prefix = normalized_key(column.value(row as usize));
    let place = place_of(&buckets.ranks, prefix);
    if place < buckets.ranks.len() && buckets.ranks[place] == prefix {
        return Ok(Some(place));
    }
    if buckets.ranks.len() >= MOST || !is_exact(prefix) {
        return Ok(None);
    }
    buckets.ranks.insert(place, prefix)?;
    buckets.list.insert(
        place,
        Bucket {
            row,
            endpoints: Endpoints::none(alloc),
            changes: Changes::none(alloc),
        },
    )?;
    Ok(Some(place))
}

// Puts the row into the bucket of its value, if its period overlaps the window. Returns `false` if its value cannot
// have a bucket.
fn put_row(
    alloc: Global,
    column: &ColumnView<'_>,
    row: u32,
    period: &Period,
    window: &Period,
    buckets: &mut Tally,
) -> Result<bool, AllocError>
    requires ranked { AreRanked column.now buckets.old.ranks.items buckets.old.list.items }
    requires cut { AreCut window.now buckets.old.list.items }
    ensures ranked { IfOk result (λ is_put. is_put ≡ true → AreRanked column.now buckets.new.ranks.items buckets.new.list.items) }
    ensures cut { IfOk result (λ is_put. is_put ≡ true → AreCut window.now buckets.new.list.items) }
    ensures counts { IfOk result (λ is_put. is_put ≡ true → (t : ℕ) (key : List Value) → counted column.now t key buckets.new.list.items
        ≡ counted column.now t key buckets.old.list.items +ℤ (if holds period.now t && holds window.now t then (if same_row (value_at column.now row ∷ []) key then pos 1 else pos 0) else pos 0)) }
{
    let Some(shared) = period.overlap(window) else {
        return Ok(true);
    };
    let Some(place) = bucket_at(alloc, column, row, buckets)? else {
        return Ok(false);
    };
    buckets.list[place].endpoints.add(&shared)?;
    Ok(true)
}

/// The rows from one number to another that overlap the window, in the buckets of their values in the column. All are in buckets if
/// the column has few values, and normalized key prefixes determine them. `AllocError` if an allocation failed.
pub fn tally_rows(
    alloc: Global,
    rows: &Relation<'_>,
    window: &Period,
    column: u32,
    start: usize,
    end: usize,
) -> Result<Tally, AllocError>
    requires ordered { start ≤ end }
    requires within { end ≤ length rows.now.items }
    ensures { IfOk result (λ buckets. buckets.is_whole ≡ true → IsTally rows.now.items window.now column start end buckets) }
{
    let view = rows.column(column as usize);
    let periods = rows.periods();
    rows.len();
    let mut buckets = Tally {
        ranks: Vec::new(alloc),
        list: Vec::new(alloc),
        is_whole: true,
    };
    'rows: for row in start..end {
        if !put_row(
            alloc,
            &view,
            row as u32,
            &periods[row],
            window,
            &mut buckets,
        )? {
            buckets.is_whole = false;
            return Ok(buckets);
        }
    }
    Ok(buckets)
}

// Adds the result rows of the value of the bucket: the value and the count.
pub(crate) fn sweep_bucket(
    alloc: Global,
    rows: &Relation<'_>,
    window: &Period,
    column: u32,
    bucket: &mut Bucket,
    out: &mut Rows,
) -> Result<(), AllocError>
    requires starts { AreInside window.now bucket.old.endpoints.starts.items }
    requires ends { AreInside window.now bucket.old.endpoints.ends.items }
    requires width { out.old.width ≡ 2 }
    ensures width { out.new.width ≡ 2 }
    ensures rows { OnOk result ((t : ℕ) (v : List Value) → copies out.new.items v t ≡ copies out.old.items v t
        + (if holds window.now t then shown_copies (value_of (column_of rows.now.items column) bucket.old ∷ []) (count_upto bucket.old.endpoints.starts.items bucket.old.endpoints.ends.items t ∷ []) v else 0)) }
{
    bucket.endpoints.sort();
    let row = rows.row(bucket.row as usize);
    let key = GroupKey {
        row: &row,
        columns: &[column],
        shows_zero: false,
    };
    sweep(
        alloc,
        &key,
        &bucket.endpoints,
        window,
        &mut Scratch::new(alloc),
        out,
    )
}

// The result of `group_count_sum` for one key column and no sums. `None` if the column has too many values, or one that its prefix
// does not determine.
pub(crate) fn count_in_buckets(
    alloc: Global,
    rows: &Relation<'_>,
    window: &Period,
    column: u32,
) -> Result<Option<Rows>, AllocError>
    ensures width { IfOk result (λ found. IfSome found (λ out. out.width ≡ 2)) }
    ensures inside { IfOk result (λ found. IfSome found (λ out. HasInside window.now out.items (λ t v. occurrences (grouped_rows (column ∷ []) [] (at rows.now.items t)) v))) }
    ensures outside { IfOk result (λ found. IfSome found (λ out. IsEmptyOutside window.now out.items)) }
{
    let mut buckets = tally_rows(alloc, rows, window, column, 0, rows.len())?;
    if !buckets.is_whole {
        return Ok(None);
    }
    let mut out = Rows::new(alloc, 2);
    'buckets: for bucket in buckets.list.iter_mut() {
        sweep_bucket(alloc, rows, window, column, bucket, &mut out)?;
    }
    Ok(Some(out))
}
