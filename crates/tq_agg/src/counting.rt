//! Counts and sums of groups of rows, and the count of all rows.

ghost use Rattle.std.specs.List.Sorted.{IsNonDecreasingBy};
ghost use Rattle.std.specs.Prelude.{◌≡◌, ◌+◌, ◌<◌, ◌^◌, ℕ, [], if◌then◌else◌, length, map, All, IfOk, List, OnOk};
ghost use Rattle.tq_base.specs.declared.fragment.Fragment.{Fragment};
ghost use Rattle.tq_base.specs.declared.value.Value.{Value};
ghost use Rattle.tq_base.specs.Fragments.{at, copies, occurrences};
ghost use Rattle.tq_base.specs.declared.sort_input.SortKey.{SortKey};
ghost use Rattle.tq_base.specs.Keys.{key_row, IsSortKey};
ghost use Rattle.tq_base.specs.SortInputs.{state_of};
ghost use Rattle.tq_base.specs.Periods.{holds};
ghost use Rattle.tq_condition.specs.Ordinary.{HasInside, IsEmptyOutside};
ghost use Rattle.tq_agg.specs.Grouping.{AreSummable, count_rows, grouped_rows};
ghost use Rattle.tq_agg.specs.GroupKeys.{AreOfKey};
ghost use Rattle.tq_agg.specs.Totals.{shown_copies, totals_held, HaveSmall, HaveWeights};

use crate::bounds::{End, fill_ends};
use crate::bucket_sums::sum_in_buckets;
use crate::buckets::count_in_buckets;
use crate::endpoints::endpoints_of;
use crate::groups::{Group, SortedGroup};
use crate::summands::{summands_of, weights_of};
use crate::sweeping::{GroupKey, Scratch, sweep};
use std::alloc::{AllocError, Global};
use tq_base::{Period, Relation, Rows, Side, SortInput, SortKey};

// Adds the result rows of the group. It replaces the list of ends; the scratch memory has no values before and after.
fn add_group(
    alloc: Global,
    group: &Group<'_>,
    ends: &mut Vec<End>,
    scratch: &mut Scratch,
    out: &mut Rows,
) -> Result<(), AllocError>
    requires empty { scratch.old.values.items ≡ [] }
    requires keys { All (IsSortKey (state_of group.now.sort_input.now)) group.now.keys.now }
    requires starts { IsNonDecreasingBy (λ (k : SortKey). k.start) group.now.keys.now }
    requires short { length group.now.keys.now < 2 ^ 63 }
    requires small { All (λ s. HaveSmall s (map (key_row (state_of group.now.sort_input.now)) group.now.keys.now)) group.now.summands.now }
    requires weights { HaveWeights group.now.sort_input.now.left.now.items group.now.summands.now (map (λ list. list.items) group.now.weights.now) }
    requires width { out.old.width ≡ length group.now.sort_input.now.left_columns.now + length group.now.summands.now }
    ensures emptied { OnOk result (scratch.new.values.items ≡ []) }
    ensures width { out.new.width ≡ out.old.width }
    ensures rows { OnOk result ((k : List Value) → AreOfKey group.now.sort_input.now.left_columns.now k (map (key_row (state_of group.now.sort_input.now)) group.now.keys.now) → (t : ℕ) (v : List Value) → copies out.new.items v t
        ≡ copies out.old.items v t + (if holds group.now.window.now t then shown_copies k (totals_held group.now.summands.now group.now.window.now (map (key_row (state_of group.now.sort_input.now)) group.now.keys.now) t) v else 0)) }
{
    let Some(first) = group.keys.first() else {
        return Ok(());
    };
    fill_ends(group.sort_input, group.keys, group.window, ends)?;
    let row = group.sort_input.row(first);
    let key = GroupKey {
        row: &row,
        columns: group.sort_input.left_columns,
        shows_zero: false,
    };
    let timeline = SortedGroup {
        group,
        ends: &*ends,
    };
    sweep(alloc, &key, &timeline, group.window, scratch, out)
}

/// A row for each group of equal values in the key columns, while it has valid rows in the window: these values, the count of
/// rows, and the sum of each summed column. Without key columns all rows are one group. A column that a row does not have and
/// a text count as 0 in a sum. Summed numbers must have 64 signed bits. `AllocError` if an allocation failed.
pub fn group_count_sum(
    alloc: Global,
    rows: &Relation<'_>,
    window: &Period,
    keys: &[u32],
    sums: &[u32],
) -> Result<Rows, AllocError>
    requires summable { All (λ (row : Fragment). AreSummable sums.now row.values) rows.now.items }
    ensures width { IfOk result (λ out. out.width ≡ length keys.now + 1 + length sums.now) }
    ensures inside { IfOk result (λ out. HasInside window.now out.items
        (λ t v. occurrences (grouped_rows keys.now sums.now (at rows.now.items t)) v)) }
    ensures outside { IfOk result (λ out. IsEmptyOutside window.now out.items) }
{
    if keys.len() == 1 && sums.is_empty() {
        if let Some(out) = count_in_buckets(alloc, rows, window, keys[0])? {
            return Ok(out);
        }
    }
    if keys.len() == 1 && sums.len() == 1 {
        if let Some(out) = sum_in_buckets(alloc, rows, window, keys[0], sums[0])? {
            return Ok(out);
        }
    }
    let summands = summands_of(alloc, sums)?;
    let sort_input = SortInput {
        left: &*rows,
        right: &*rows,
        left_columns: keys,
        right_columns: keys,
    };
    let mut sorted = Vec::new(alloc);
    sort_input.add_keys(Side::Left, Some(window), &mut sorted)?;
    sort_input.sort(&mut sorted)?;
    let weights = weights_of(alloc, rows, &summands)?;
    let mut ends = Vec::new(alloc);
    let mut scratch = Scratch::new(alloc);
    let mut out = Rows::new(alloc, keys.len() + summands.len());
    let mut start = 0;
    'groups: while start < sorted.len() {
        let end = start + sort_input.run_len(&sorted[start..]);
        let group = Group {
            sort_input: &sort_input,
            window,
            keys: &sorted[start..end],
            summands: &summands,
            weights: &weights,
        };
        add_group(alloc, &group, &mut ends, &mut scratch, &mut out)?;
        start = end;
    }
    Ok(out)
}

/// The count of the valid rows: one row at each instant of the window, with the number 0 while no row is valid. `AllocError` if
/// an allocation failed.
pub fn count_all(alloc: Global, rows: &Relation<'_>, window: &Period) -> Result<Rows, AllocError>
    ensures width { IfOk result (λ out. out.width ≡ 1) }
    ensures inside { IfOk result (λ out. HasInside window.now out.items (λ t v. occurrences (count_rows (at rows.now.items t)) v)) }
    ensures outside { IfOk result (λ out. IsEmptyOutside window.now out.items) }
{
    let endpoints = endpoints_of(alloc, rows, window)?;
    let row = rows.row(0);
    let key = GroupKey {
        row: &row,
        columns: &[],
        shows_zero: true,
    };
    let mut scratch = Scratch::new(alloc);
    let mut out = Rows::new(alloc, 1);
    sweep(alloc, &key, &endpoints, window, &mut scratch, &mut out)?;
    Ok(out)
}
