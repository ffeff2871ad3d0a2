// Rows in the order of time.

ghost use Rattle.std.specs.Prelude.{◌≡◌, IfOk, IsPermutation, IsSorted, length, map};
ghost use Rattle.std.specs.List.{range_with_len};
ghost use Rattle.tq_base.specs.Relations.{row_period_of};
ghost use Rattle.tq_base.specs.ValueOrder.{values_cmp};
ghost use Rattle.tq_report.specs.Times.{row_key, time_cmp};

use std::alloc::{AllocError, Global};
use std::cmp::Ordering;
use tq_base::{Relation, Row, RowPeriod};
use tq_table::{ResultRows, Table};

// Compares the values of two rows.
fn compare_values(row: &Row<'_>, other: &Row<'_>) -> Ordering
    ensures { result ≡ values_cmp row.now other.now }
{
    'places: for place in 0..row.len().min(other.len()) {
        let order = row.value(place).compare(other.value(place));
        if order.is_ne() {
            return order;
        }
    }
    row.len().cmp(&other.len())
}

// Compares the rows of the keys: their starts, then their ends, then their values.
fn compare_times(rows: &ResultRows<'_>, one: &RowPeriod, other: &RowPeriod) -> Ordering
    ensures { result ≡ time_cmp (row_period_of rows.now one.now) (row_period_of rows.now other.now) }
{
    let order = one
        .period
        .start
        .cmp(&other.period.start)
        .then(one.period.end.cmp(&other.period.end));
    if order.is_ne() {
        return order;
    }
    compare_values(&rows.row(one.row as usize), &rows.row(other.row as usize))
}

// The number and the period of each row. `AllocError` if there are 2^32 rows or more.
fn keys_of(alloc: Global, rows: &ResultRows<'_>) -> Result<Vec<RowPeriod>, AllocError>
    ensures { IfOk result (λ keys. keys.items ≡ map (row_key rows.now) (range_with_len 0 (length rows.now))) }
{
    let mut keys = Vec::with_capacity(alloc, rows.len())?;
    'rows: for row in 0..rows.len() {
        let Ok(number) = u32::try_from(row) else {
            return Err(AllocError);
        };
        keys.push(RowPeriod {
            row: number,
            period: rows.period(row),
        })?;
    }
    Ok(keys)
}

fn sort_keys(rows: &ResultRows<'_>, keys: &mut Vec<RowPeriod>)
    ensures same { IsPermutation keys.old.items keys.new.items }
    ensures order { IsSorted time_cmp (map (row_period_of rows.now) keys.new.items) }
{
    keys.sort_unstable_by(|one, other| compare_times(rows, one, other));
}

// The rows in the order of time.
fn sorted_rows<'b>(alloc: Global, rows: &ResultRows<'_>) -> Result<ResultRows<'b>, AllocError>
    ensures same { IfOk result (λ sorted. IsPermutation rows.now sorted) }
    ensures order { IfOk result (λ sorted. IsSorted time_cmp sorted) }
{
    let mut keys = keys_of(alloc, rows)?;
    sort_keys(rows, &mut keys);
    let copy = Relation::owned(alloc, rows.copied(alloc)?)?;
    Ok(ResultRows::of(copy.take_row_periods(alloc, &keys)?))
}

/// The table with its rows ordered by start, then end, then values. `AllocError` if an allocation failed.
pub fn by_time<'b>(alloc: Global, table: Table<'_>) -> Result<Table<'b>, AllocError>
    ensures columns { IfOk result (λ sorted. sorted.columns ≡ table.entry.columns) }
    ensures rows { IfOk result (λ sorted. IsPermutation table.entry.rows sorted.rows) }
    ensures order { IfOk result (λ sorted. IsSorted time_cmp sorted.rows) }
{
    let rows = sorted_rows(alloc, &table.rows)?;
    Ok(Table {
        columns: table.columns,
        rows,
    })
}
