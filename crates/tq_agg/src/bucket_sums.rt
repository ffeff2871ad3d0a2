//! Counts of the rows of each value of one column that has few values, and sums of another column over them, in buckets.

ghost use Rattle.std.specs.Prelude.{◌≡◌, ◌+◌, ◌+ℤ◌, ◌<◌, ◌&&◌, ◌^◌, ℕ, ℤ, pos, true, [], ◌∷◌, IfOk, IfSome, List, OnOk, if◌then◌else◌, length};
ghost use Rattle.tq_base.specs.declared.value.Value.{Value};
ghost use Rattle.tq_base.specs.Fragments.{at, copies, occurrences};
ghost use Rattle.tq_base.specs.RowValues.{value_at};
ghost use Rattle.tq_base.specs.Periods.{holds};
ghost use Rattle.tq_base.specs.Relations.{column_of};
ghost use Rattle.tq_condition.specs.Ordinary.{HasInside, IsEmptyOutside};
ghost use Rattle.tq_agg.specs.Buckets.{value_of, AreRanked};
ghost use Rattle.tq_agg.specs.Changes.{totals_changed, weighed, AreChangesCut, AreWeighed, ChangeInside};
ghost use Rattle.tq_agg.specs.Grouping.{grouped_rows, same_row};
ghost use Rattle.tq_agg.specs.Totals.{shown_copies};

use crate::buckets::{Bucket, Tally, bucket_at};
use crate::summands::number_of;
use crate::sweeping::{GroupKey, Scratch, sweep};
use std::alloc::{AllocError, Global};
use tq_base::{ColumnView, Period, Relation, Rows};

// Puts the row, with its number in the summed column, into the bucket of its value, if its period overlaps the window.
// Returns `false` if its value cannot have a bucket.
fn put_change(
    alloc: Global,
    column: &ColumnView<'_>,
    row: u32,
    weight: i64,
    period: &Period,
    window: &Period,
    buckets: &mut Tally,
) -> Result<bool, AllocError>
    requires ranked { AreRanked column.now buckets.old.ranks.items buckets.old.list.items }
    requires cut { AreChangesCut window.now buckets.old.list.items }
    ensures ranked { IfOk result (λ is_put. is_put ≡ true → AreRanked column.now buckets.new.ranks.items buckets.new.list.items) }
    ensures cut { IfOk result (λ is_put. is_put ≡ true → AreChangesCut window.now buckets.new.list.items) }
    ensures weights { IfOk result (λ is_put. is_put ≡ true → (f : ℤ → ℤ) (t : ℕ) (key : List Value) → weighed f column.now t key buckets.new.list.items
        ≡ weighed f column.now t key buckets.old.list.items +ℤ (if holds period.now t && holds window.now t then (if same_row (value_at column.now row ∷ []) key then f weight else pos 0) else pos 0)) }
{
    let Some(shared) = period.overlap(window) else {
        return Ok(true);
    };
    let Some(place) = bucket_at(alloc, column, row, buckets)? else {
        return Ok(false);
    };
    buckets.list[place].changes.add(&shared, weight)?;
    Ok(true)
}

// The rows that overlap the window, in the buckets of their values in the column, each with its number in the summed column. All are
// in buckets if the column has few values, normalized key prefixes determine them, and each number has 64 signed bits.
fn weigh_rows(
    alloc: Global,
    rows: &Relation<'_>,
    window: &Period,
    column: u32,
    summed: u32,
) -> Result<Tally, AllocError>
    ensures { IfOk result (λ buckets. buckets.is_whole ≡ true → AreWeighed rows.now.items window.now column summed buckets) }
{
    let view = rows.column(column as usize);
    let numbers = rows.column(summed as usize);
    let periods = rows.periods();
    rows.len();
    let mut buckets = Tally {
        ranks: Vec::new(alloc),
        list: Vec::new(alloc),
        is_whole: true,
    };
    'rows: for row in 0..periods.len() {
        let Ok(weight) = i64::try_from(number_of(numbers.value(row))) else {
            buckets.is_whole = false;
            return Ok(buckets);
        };
        if !put_change(
            alloc,
            &view,
            row as u32,
            weight,
            &periods[row],
            window,
            &mut buckets,
        )? {
            buckets.is_whole = false;
            return Ok(buckets);
        }
    }
    Ok(buckets)
}

// Adds the result rows of the value of the bucket: the value, the count and the sum.
fn sweep_weighed(
    alloc: Global,
    rows: &Relation<'_>,
    window: &Period,
    column: u32,
    bucket: &mut Bucket,
    out: &mut Rows,
) -> Result<(), AllocError>
    requires starts { ChangeInside window.now bucket.old.changes.starts.items }
    requires ends { ChangeInside window.now bucket.old.changes.ends.items }
    requires short { length bucket.old.changes.starts.items < 2 ^ 63 }
    requires ends_short { length bucket.old.changes.ends.items < 2 ^ 63 }
    requires width { out.old.width ≡ 3 }
    ensures width { out.new.width ≡ 3 }
    ensures rows { OnOk result ((t : ℕ) (v : List Value) → copies out.new.items v t ≡ copies out.old.items v t
        + (if holds window.now t then shown_copies (value_of (column_of rows.now.items column) bucket.old ∷ []) (totals_changed bucket.old.changes.starts.items bucket.old.changes.ends.items t) v else 0)) }
{
    bucket.changes.sort();
    let row = rows.row(bucket.row as usize);
    let key = GroupKey {
        row: &row,
        columns: &[column],
        shows_zero: false,
    };
    sweep(
        alloc,
        &key,
        &bucket.changes,
        window,
        &mut Scratch::new(alloc),
        out,
    )
}

// The result of `group_count_sum` for one key column and one summed column. `None` if the key column has too many values or one that
// its prefix does not determine, or if a number has more than 64 signed bits.
pub(crate) fn sum_in_buckets(
    alloc: Global,
    rows: &Relation<'_>,
    window: &Period,
    column: u32,
    summed: u32,
) -> Result<Option<Rows>, AllocError>
    ensures width { IfOk result (λ found. IfSome found (λ out. out.width ≡ 3)) }
    ensures inside { IfOk result (λ found. IfSome found (λ out. HasInside window.now out.items (λ t v. occurrences (grouped_rows (column ∷ []) (summed ∷ []) (at rows.now.items t)) v))) }
    ensures outside { IfOk result (λ found. IfSome found (λ out. IsEmptyOutside window.now out.items)) }
{
    let mut buckets = weigh_rows(alloc, rows, window, column, summed)?;
    if !buckets.is_whole {
        return Ok(None);
    }
    let mut out = Rows::new(alloc, 3);
    'buckets: for bucket in buckets.list.iter_mut() {
        sweep_weighed(alloc, rows, window, column, bucket, &mut out)?;
    }
    Ok(Some(out))
}
