// Coalescing: each group of rows with equal values is layered on its own.

ghost use Rattle.std.specs.Prelude.{◌≡◌, ◌<◌, ◌++◌, All, IfOk, List, OnOk, length, map};
ghost use Rattle.std.specs.Bool.{OnTrue};
ghost use Rattle.std.specs.List.{range_with_len};
ghost use Rattle.tq_base.specs.declared.value.Value.{Value};
ghost use Rattle.tq_base.specs.declared.fragment.Fragment.{Fragment};
ghost use Rattle.tq_base.specs.Fragments.{copies};
ghost use Rattle.tq_base.specs.Keys.{key_row};
ghost use Rattle.tq_base.specs.SortInputs.{state_of};
ghost use Rattle.tq_base.specs.Layers.{IsLayers};
ghost use Rattle.tq_base.specs.Layering.{AddsLayers};
ghost use Rattle.tq_base.specs.Relations.{row_period_of};
ghost use Rattle.tq_table.specs.Disjoint.{AreDisjoint};
ghost use Rattle.tq_table.specs.Groups.{row_period_at, AreByValues};

use crate::layering::layered;
use crate::lines::ResultRows;
use crate::prefetched_periods::PrefetchedPeriods;
use crate::row_period_list::RowPeriodList;
use std::alloc::{AllocError, Global};
use tq_base::{Period, Relation, Side, SortInput, SortKey, all_columns};

// Whether each period ends before the next one begins. Rows with such periods are their own layers.
fn are_disjoint(periods: &[Period]) -> bool
    ensures { (rows : List Fragment) → periods.now ≡ map (λ (row : Fragment). row.period) rows → OnTrue result (AreDisjoint rows) }
{
    periods.is_sorted_by(|one, next| one.end.number() < next.start.number())
}

// Appends the row once for each period.
fn add_row_periods(
    row: u32,
    periods: &[Period],
    table: &mut RowPeriodList,
) -> Result<(), AllocError>
    ensures { OnOk result (table.new ≡ table.old ++ map (row_period_at row) periods.now) }
{
    'periods: for period in periods {
        table.push(row, *period)?;
    }
    Ok(())
}

// Appends the layers of a group of rows with equal values and these periods. Each refers to the first row of the group,
// so that writing them reads the values of only one row.
fn add_layers(
    alloc: Global,
    sort_input: &SortInput<'_>,
    group: &[SortKey],
    periods: &[Period],
    table: &mut RowPeriodList,
) -> Result<(), AllocError>
    requires some { 0 < length group.now }
    requires periods { periods.now ≡ map (λ k. (key_row (state_of sort_input.now) k).period) group.now }
    requires left { All (λ k. k.side ≡ Side.Left) group.now }
    requires stand { All (λ k. k.row < length sort_input.now.left.now.items) group.now }
    ensures within { OnOk result (All (λ line. line.row < length sort_input.now.left.now.items) table.old → All (λ line. line.row < length sort_input.now.left.now.items) table.new) }
    ensures layers { OnOk result ((v : List Value) → All (λ k. (key_row (state_of sort_input.now) k).values ≡ v) group.now
        → AddsLayers v (map (key_row (state_of sort_input.now)) group.now) (map (row_period_of sort_input.now.left.now.items) table.old) (map (row_period_of sort_input.now.left.now.items) table.new)) }
{
    let row = group[0].row;
    if are_disjoint(periods) {
        return add_row_periods(row, periods, table);
    }
    let layering = layered(alloc, periods)?;
    add_row_periods(row, &layering, table)
}

// The keys of the left rows, sorted by their values.
fn sorted_keys(alloc: Global, sort_input: &SortInput<'_>) -> Result<Vec<SortKey>, AllocError>
    ensures { IfOk result (λ keys. AreByValues (state_of sort_input.now) keys.items) }
{
    let mut keys = Vec::new(alloc);
    sort_input.add_keys(Side::Left, None, &mut keys)?;
    sort_input.sort(&mut keys)?;
    Ok(keys)
}

// The layers of the left rows, group by group; the keys are ordered by the rows' values.
pub(crate) fn layered_groups(
    alloc: Global,
    sort_input: &SortInput<'_>,
    keys: &[SortKey],
) -> Result<RowPeriodList, AllocError>
    requires columns { sort_input.now.left_columns.now ≡ range_with_len 0 sort_input.now.left.now.width }
    requires keys { AreByValues (state_of sort_input.now) keys.now }
    ensures within { IfOk result (λ lines. All (λ line. line.row < length sort_input.now.left.now.items) lines) }
    ensures layers { IfOk result (λ lines. IsLayers (copies sort_input.now.left.now.items) (map (row_period_of sort_input.now.left.now.items) lines)) }
{
    sort_input.left.width();
    let periods = sort_input.left.periods();
    let mut ahead = PrefetchedPeriods::new(alloc);
    let mut table = RowPeriodList::with_capacity(alloc, keys.len())?;
    let mut start = 0;
    'groups: while start < keys.len() {
        let end = start + sort_input.run_len(&keys[start..]);
        ahead.prefetch_range(alloc, periods, keys, start, end)?;
        add_layers(
            alloc,
            sort_input,
            &keys[start..end],
            ahead.between(start, end),
            &mut table,
        )?;
        start = end;
    }
    Ok(table)
}

// The layers of the rows.
fn layered_rows(alloc: Global, rows: &Relation<'_>) -> Result<RowPeriodList, AllocError>
    ensures within { IfOk result (λ lines. All (λ line. line.row < length rows.now.items) lines) }
    ensures layers { IfOk result (λ lines. IsLayers (copies rows.now.items) (map (row_period_of rows.now.items) lines)) }
{
    let columns = all_columns(alloc, rows.width())?;
    let sort_input = SortInput {
        left: &*rows,
        right: &*rows,
        left_columns: &columns,
        right_columns: &columns,
    };
    let keys = sorted_keys(alloc, &sort_input)?;
    layered_groups(alloc, &sort_input, &keys)
}

/// The layers of the rows. There is one row for each list of values, each n from 1 on and each maximal run of instants
/// with n copies or more. They are ordered by values, then by start, then by end. No value is moved or copied.
/// `AllocError` if an allocation failed.
pub fn coalesce<'a>(alloc: Global, rows: Relation<'a>) -> Result<ResultRows<'a>, AllocError>
    ensures layers { IfOk result (IsLayers (copies rows.entry.items)) }
    ensures width { IfOk result (λ lines. All (λ (row : Fragment). length row.values ≡ rows.entry.width) lines) }
{
    let lines = layered_rows(alloc, &rows)?;
    let take_rows_ref = lines.take_rows_from(alloc, rows)?;
    take_rows_ref.width();
    Ok(ResultRows::of(take_rows_ref))
}
