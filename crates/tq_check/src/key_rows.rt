// The rows of a table in the order of their keys. A row's key is the value in its first column.

ghost use Rattle.std.specs.Prelude.{◌≡◌, ◌<◌, IfOk, length, slice_index_or};
ghost use Rattle.tq_base.specs.Keys.{no_row};
ghost use Rattle.tq_check.specs.KeyRows.{key_order_cmp, keyed, keyed_rows, IsKeyOrder};

use std::alloc::{AllocError, Global};
use std::cmp::Ordering;
use tq_base::{Relation, normalized_key};

/// A row as checks of keys see it: the normalized key of its first value, its period, and its place in the table,
/// counted from 0.
#[derive(Clone, Copy, Debug)]
pub(crate) struct KeyedRow {
    pub(crate) key: u128,
    pub(crate) start: u64,
    pub(crate) end: u64,
    pub(crate) place: u32,
}

// Compares by key, then by start, then by place.
fn compare(row: &KeyedRow, other: &KeyedRow) -> Ordering
    ensures { result ≡ key_order_cmp row.now other.now }
{
    row.key
        .cmp(&other.key)
        .then(row.start.cmp(&other.start))
        .then(row.place.cmp(&other.place))
}

// The row at the place.
fn keyed_row(rows: &Relation<'_>, place: usize) -> KeyedRow
    requires { place < length rows.now.items }
    ensures { result ≡ keyed (slice_index_or rows.now.items place no_row) place }
{
    let _few = rows.len();
    let period = rows.period(place);
    let row = rows.row(place);
    KeyedRow {
        key: normalized_key(row.value(0)),
        start: period.start.number(),
        end: period.end.number(),
        place: place as u32,
    }
}

// All rows, in the order of the table.
fn keyed_rows(alloc: Global, rows: &Relation<'_>) -> Result<Vec<KeyedRow>, AllocError>
    ensures { IfOk result (λ all. all.items ≡ keyed_rows rows.now.items) }
{
    let mut all = Vec::with_capacity(alloc, rows.len())?;
    'places: for place in 0..rows.len() {
        all.push(keyed_row(rows, place))?;
    }
    Ok(all)
}

/// The rows by key, then by start, then by place. `AllocError` if an allocation failed.
pub(crate) fn rows_by_key(alloc: Global, rows: &Relation<'_>) -> Result<Vec<KeyedRow>, AllocError>
    ensures { IfOk result (λ order. IsKeyOrder rows.now.items order.items) }
{
    let mut order = keyed_rows(alloc, rows)?;
    order.sort_unstable_by(|row, other| compare(row, other));
    Ok(order)
}
