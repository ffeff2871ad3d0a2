// The sums of each group of rows.

ghost use Rattle.std.specs.BTreeMap.{get};
ghost use Rattle.std.specs.Ordering.{eq_by_cmp};
ghost use Rattle.std.specs.Prelude.{◌≡◌, [], ◌∷◌, ◌++◌, false, IfErr, IfOk, List, OnOk, Some, map, unwrap_or};
ghost use Rattle.tq_base.specs.declared.fragment.Fragment.{Fragment};
ghost use Rattle.tq_base.specs.declared.value.Value.{Value};
ghost use Rattle.tq_base.specs.RowValues.{value_at};
ghost use Rattle.tq_base.specs.ValueOrder.{values_cmp};
ghost use Rattle.tq_totals.specs.Sums.{row_sum, sums_over, IsSumFault};
ghost use Rattle.tq_totals.specs.Totals.{group, HaveEnds, HaveNumbers, IsFault};

use crate::fault::TotalsFault;
use crate::sums::Sums;
use std::alloc::{AllocError, Global};
use std::collections::BTreeMap;
use tq_base::{Period, Row, Values};
use tq_table::ResultRows;

// The values of the row in the columns.
fn key_of(alloc: Global, row: &Row<'_>, by: &[u32]) -> Result<Values, AllocError>
    ensures { IfOk result (λ key. key ≡ map (value_at row.now) by.now) }
{
    let mut values = Vec::with_capacity(alloc, by.len())?;
    row.show(by, &mut values)?;
    Ok(Values::of(values))
}

// Takes out the sums of a group, or makes those of a group without rows.
fn take_sums(
    alloc: Global,
    groups: &mut BTreeMap<Values, Sums>,
    key: &Values,
    summed: &[u32],
) -> Result<Sums, AllocError>
    ensures sums { IfOk result (λ sums. sums ≡ unwrap_or (get values_cmp groups.old key.now) (map (row_sum []) summed.now)) }
    ensures others { (other : List Value) → eq_by_cmp values_cmp key.now other ≡ false → get values_cmp groups.new other ≡ get values_cmp groups.old other }
{
    match groups.remove(key) {
        Some(sums) => Ok(sums),
        None => Sums::zero(alloc, summed),
    }
}

// Adds a row to the sums of the group with this key.
fn add_row(
    alloc: Global,
    groups: &mut BTreeMap<Values, Sums>,
    key: Values,
    row: &Row<'_>,
    period: Period,
    summed: &[u32],
) -> Result<(), TotalsFault>
    requires { (rows : List Fragment) × (get values_cmp groups.old key ≡ sums_over summed.now rows) }
    ensures sums { (rows : List Fragment) → get values_cmp groups.old key ≡ sums_over summed.now rows
        → OnOk result (get values_cmp groups.new key ≡ Some (map (row_sum (rows ++ record { values = row.now; period = period } ∷ [])) summed.now)) }
    ensures others { (other : List Value) → eq_by_cmp values_cmp key other ≡ false → OnOk result (get values_cmp groups.new other ≡ get values_cmp groups.old other) }
    ensures fault { (rows : List Fragment) → get values_cmp groups.old key ≡ sums_over summed.now rows
        → IfErr result (IsSumFault summed.now (rows ++ record { values = row.now; period = period } ∷ [])) }
{
    let mut sums = take_sums(alloc, groups, &key, summed)?;
    match sums.add_row(row, period, summed) {
        Ok(()) => match groups.insert(key, sums) {
            Ok(_) => Ok(()),
            Err(_) => Err(TotalsFault::OutOfMemory),
        },
        Err(column) => Err(TotalsFault::Overflow { column }),
    }
}

/// The sums of the columns over each group of rows with equal values in the columns `by`.
pub(crate) fn sums_by_group(
    alloc: Global,
    rows: &ResultRows<'_>,
    by: &[u32],
    summed: &[u32],
) -> Result<BTreeMap<Values, Sums>, TotalsFault>
    ensures sums { IfOk result (λ groups. (values : List Value) → get values_cmp groups values ≡ sums_over summed.now (group by.now values rows.now)) }
    ensures fault { HaveEnds rows.now → HaveNumbers summed.now rows.now → IfErr result (IsFault by.now summed.now rows.now) }
{
    let mut groups = BTreeMap::new(alloc);
    'rows: for place in 0..rows.len() {
        let row = rows.row(place);
        let key = key_of(alloc, &row, by)?;
        add_row(alloc, &mut groups, key, &row, rows.period(place), summed)?;
    }
    Ok(groups)
}
