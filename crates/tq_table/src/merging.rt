// Merging: the layers of several ordered lists of rows.

ghost use Rattle.std.specs.Prelude.{◌≡◌, ◌<◌, ◌++◌, All, IfOk, IsSorted, length, map};
ghost use Rattle.std.specs.Global.{Vec};
ghost use Rattle.std.specs.List.{range_with_len, sum};
ghost use Rattle.tq_base.specs.declared.fragment.Fragment.{Fragment};
ghost use Rattle.tq_base.specs.declared.sort_input.SortKey.{SortKey};
ghost use Rattle.tq_base.specs.Fragments.{copies, fragment_cmp};
ghost use Rattle.tq_base.specs.SortInputs.{state_of};
ghost use Rattle.tq_base.specs.Layers.{IsLayers};
ghost use Rattle.tq_base.specs.Relations.{row_period_of};
ghost use Rattle.tq_base.specs.RowLists.{RowList};
ghost use Rattle.tq_table.specs.Groups.{AreByValues};
ghost use Rattle.tq_table.specs.Merging.{all_rows, cut_by, AreInOrder, AreOfWidth};

use crate::coalescing::layered_groups;
use crate::lines::ResultRows;
use crate::row_period_list::RowPeriodList;
use itertools::Itertools;
use std::alloc::{AllocError, Global};
use tq_base::{Relation, Rows, Side, SortInput, SortKey, all_columns};

// The rows, then those of `other`, which has the same width unless it is empty.
fn append_rows(rows: Rows, other: Rows) -> Result<Rows, AllocError>
    requires { All (λ (row : Fragment). length row.values ≡ rows.width) other.items }
    ensures width { IfOk result (λ all. all.width ≡ rows.width) }
    ensures rows { IfOk result (λ all. all.items ≡ rows.items ++ other.items) }
{
    other.width();
    if other.len() == 0 {
        return Ok(rows);
    }
    rows.followed_by(other)
}

/// The rows of all lists, one list after the other. Requires that each row has `width` values. No value is copied.
/// `AllocError` if an allocation failed or there are 2^32 rows or more.
pub fn chained(alloc: Global, width: usize, lists: Vec<Rows>) -> Result<Rows, AllocError>
    requires { All (AreOfWidth width) lists.items }
    ensures width { IfOk result (λ rows. rows.width ≡ width) }
    ensures rows { IfOk result (λ rows. rows.items ≡ all_rows lists.items) }
{
    let mut all = Rows::new(alloc, width);
    'lists: for rows in lists {
        all = append_rows(all, rows)?;
    }
    Ok(all)
}

fn lens_of(alloc: Global, lists: &[Rows]) -> Result<Vec<usize>, AllocError>
    ensures { IfOk result (λ lens. lens.items ≡ map (λ (rows : RowList). length rows.items) lists.now) }
{
    lists.iter().map(|rows| rows.len()).collect(alloc)
}

// The keys, cut into lists of these lengths.
fn cut_keys(
    alloc: Global,
    keys: &[SortKey],
    lens: &[usize],
) -> Result<Vec<Vec<SortKey>>, AllocError>
    ensures { IfOk result (λ lists. map (λ (list : Vec SortKey). list.items) lists.items ≡ cut_by lens.now keys.now) }
{
    let mut lists = Vec::with_capacity(alloc, lens.len())?;
    let mut start = 0;
    'lens: for len in lens {
        let end = start + (*len).min(keys.len() - start);
        lists.push(Vec::from_slice(alloc, &keys[start..end])?)?;
        start = end;
    }
    Ok(lists)
}

// The keys of the left rows, ordered by their values. The left rows are ordered lists of these lengths, one after the
// other.
fn merged_keys(
    alloc: Global,
    sort_input: &SortInput<'_>,
    lens: &[usize],
) -> Result<Vec<SortKey>, AllocError>
    requires columns { sort_input.now.left_columns.now ≡ range_with_len 0 sort_input.now.left.now.width }
    requires whole { sum lens.now ≡ length sort_input.now.left.now.items }
    requires in_order { All (IsSorted fragment_cmp) (cut_by lens.now sort_input.now.left.now.items) }
    ensures { IfOk result (λ keys. AreByValues (state_of sort_input.now) keys.items) }
{
    sort_input.left.width();
    let mut keys = Vec::new(alloc);
    sort_input.add_keys(Side::Left, None, &mut keys)?;
    let lists = cut_keys(alloc, &keys, lens)?;
    let merged = lists
        .into_iter()
        .kmerge_by(alloc, |one: &SortKey, other: &SortKey| {
            sort_input.compare(one, other).is_lt()
        })?;
    merged.collect(alloc)
}

// The layers of the rows, which are ordered lists of these lengths, one after the other.
fn merged_row_periods(
    alloc: Global,
    rows: &Relation<'_>,
    lens: &[usize],
) -> Result<RowPeriodList, AllocError>
    requires whole { sum lens.now ≡ length rows.now.items }
    requires in_order { All (IsSorted fragment_cmp) (cut_by lens.now rows.now.items) }
    ensures within { IfOk result (λ lines. All (λ line. line.row < length rows.now.items) lines) }
    ensures layers { IfOk result (λ lines. IsLayers (copies rows.now.items) (map (row_period_of rows.now.items) lines)) }
{
    let columns = all_columns(alloc, rows.width())?;
    let sort_input = SortInput {
        left: &*rows,
        right: &*rows,
        left_columns: &columns,
        right_columns: &columns,
    };
    let keys = merged_keys(alloc, &sort_input, lens)?;
    layered_groups(alloc, &sort_input, &keys)
}

/// The layers of the rows of all lists. Requires that each row has `width` values. Each list must be ordered by values,
/// then by start, then by end, as the result of `coalesce` is. The lists are merged and not sorted again. `AllocError`
/// if an allocation failed or there are 2^32 rows or more.
pub fn merge<'a>(
    alloc: Global,
    width: usize,
    lists: Vec<Rows>,
) -> Result<ResultRows<'a>, AllocError>
    requires width { All (AreOfWidth width) lists.items }
    requires in_order { All AreInOrder lists.items }
    ensures { IfOk result (IsLayers (copies (all_rows lists.items))) }
{
    let lens = lens_of(alloc, &lists)?;
    let rows = Relation::owned(alloc, chained(alloc, width, lists)?)?;
    let lines = merged_row_periods(alloc, &rows, &lens)?;
    Ok(ResultRows::of(lines.take_rows_from(alloc, rows)?))
}
