//! Sort keys of rows on two sides: made, sorted and divided into runs.

ghost use Rattle.std.specs.Prelude.{All, IfOk};
ghost use Rattle.tq_base.specs.SortInputs.{state_of};
ghost use Rattle.tq_base.specs.Keys.{IsFresh};

use crate::lists::push_row;
use crate::words::period_between;
use std::alloc::{AllocError, Global};
use std::fmt::Write;
use tq_base::{Period, Relation, Rows, Side, SortInput, SortKey, Value};

// The keys of the rows of the left side, or of those that overlap the window.
fn left_keys(
    alloc: Global,
    sort_input: &SortInput<'_>,
    window: Option<&Period>,
) -> Result<Vec<SortKey>, AllocError>
    ensures { IfOk result (λ keys. All (IsFresh (state_of sort_input.now)) keys.items) }
{
    let mut keys = Vec::new(alloc);
    sort_input.add_keys(Side::Left, window, &mut keys)?;
    Ok(keys)
}

// The keys of the rows of both sides.
fn both_keys(alloc: Global, sort_input: &SortInput<'_>) -> Result<Vec<SortKey>, AllocError>
    ensures { IfOk result (λ keys. All (IsFresh (state_of sort_input.now)) keys.items) }
{
    let mut keys = left_keys(alloc, sort_input, None)?;
    sort_input.add_keys(Side::Right, None, &mut keys)?;
    Ok(keys)
}

// Sorted keys, and the length of their first run.
#[derive(Drop)]
struct Sorted {
    keys: Vec<SortKey>,
    run: usize,
}

// The sorted keys of two sides; these columns are compared.
fn sorted_sides(
    alloc: Global,
    left: &Relation<'_>,
    right: &Relation<'_>,
    columns: &[u32],
    with_right: bool,
) -> Result<Sorted, AllocError> {
    let sort_input = SortInput {
        left,
        right: &*right,
        left_columns: columns,
        right_columns: columns,
    };
    let mut keys = if with_right {
        both_keys(alloc, &sort_input)?
    } else {
        left_keys(alloc, &sort_input, None)?
    };
    sort_input.sort(&mut keys)?;
    let run = sort_input.run_len(&keys);
    Ok(Sorted { keys, run })
}

// Whether each key has the start of its row, and each row has `width` values.
fn print_their_rows(
    left: &Relation<'_>,
    right: &Relation<'_>,
    keys: &[SortKey],
    width: usize,
) -> bool {
    let sort_input = SortInput {
        left,
        right: &*right,
        left_columns: &[0],
        right_columns: &[0],
    };
    'keys: for key in keys {
        if sort_input.period(key).start.number() != key.start
            || sort_input.row(key).len() != width
        {
            return false;
        }
    }
    true
}

// Prints the sides and the numbers of the keys' rows.
fn print_keys(keys: &[SortKey], out: &mut String) -> Result<(), AllocError> {
    let mut divider = "";
    for key in keys {
        let side = match key.side {
            Side::Left => "left",
            Side::Right => "right",
        };
        write!(out, "{divider}{side} {}", key.row)?;
        divider = " ";
    }
    out.push('\n')
}

fn print_equal(run: usize, out: &mut String) -> Result<(), AllocError> {
    writeln!(out, "the first {run} are equal")
}

// Prints the keys, and the length of their first run.
fn print_run(sorted: &Sorted, out: &mut String) -> Result<(), AllocError> {
    print_keys(&sorted.keys, out)?;
    print_equal(sorted.run, out)
}

fn print_sides(
    alloc: Global,
    columns: &[u32],
    left: &Relation<'_>,
    right: &Relation<'_>,
    out: &mut String,
) -> Result<(), AllocError> {
    let sorted = sorted_sides(alloc, left, right, columns, true)?;
    print_run(&sorted, out)?;
    let printed = print_their_rows(left, right, &sorted.keys, 2);
    writeln!(out, "each tells its row: {printed}")
}

/// Prints the sorted keys of two sides, the length of their first run, and whether all have their rows.
pub(crate) fn print_sorted(
    alloc: Global,
    columns: &[u32],
    left: &Rows,
    right: &Rows,
    out: &mut String,
) -> Result<(), AllocError> {
    let left = Relation::of(alloc, left)?;
    let right = Relation::of(alloc, right)?;
    print_sides(alloc, columns, &left, &right, out)
}

fn sorted_list(alloc: Global, rows: &Rows, columns: &[u32]) -> Result<Sorted, AllocError> {
    let rows = Relation::of(alloc, rows)?;
    sorted_sides(alloc, &rows, &rows, columns, false)
}

/// Prints the sorted keys of one list.
pub(crate) fn print_sorted_list(
    alloc: Global,
    columns: &[u32],
    rows: &Rows,
    out: &mut String,
) -> Result<(), AllocError> {
    print_run(&sorted_list(alloc, rows, columns)?, out)
}

fn keys_within(
    alloc: Global,
    rows: &Relation<'_>,
    window: &Period,
) -> Result<Vec<SortKey>, AllocError> {
    let sort_input = SortInput {
        left: rows,
        right: &*rows,
        left_columns: &[1],
        right_columns: &[1],
    };
    left_keys(alloc, &sort_input, Some(window))
}

/// Prints the rows that overlap the window.
pub(crate) fn print_within(
    alloc: Global,
    rows: &Rows,
    window: &Period,
    out: &mut String,
) -> Result<(), AllocError> {
    let rows = Relation::of(alloc, rows)?;
    print_keys(&keys_within(alloc, &rows, window)?, out)
}

// `count` rows, in which each eleventh has the same number, and the last one is valid first.
fn many_rows(alloc: Global, count: u32) -> Result<Rows, AllocError> {
    let mut rows = Rows::new(alloc, 1);
    for number in 0..count {
        let start = 5000_u64.saturating_sub(u64::from(number));
        let value = Value::int(i64::from(number.wrapping_mul(7) % 11));
        if let Some(period) = period_between(start, 5001) {
            push_row(&mut rows, &[value], &period)?;
        }
    }
    Ok(rows)
}

// Whether each key is below the next one.
fn rise(keys: &[SortKey]) -> bool {
    for (one, other) in keys.iter().zip(keys.iter().skip(1)) {
        if (one.prefix, one.start) >= (other.prefix, other.start) {
            return false;
        }
    }
    true
}

fn print_rising(sorted: &Sorted, out: &mut String) -> Result<(), AllocError> {
    writeln!(out, "{} keys", sorted.keys.len())?;
    print_equal(sorted.run, out)?;
    writeln!(out, "they rise: {}", rise(&sorted.keys))
}

/// Prints the number of keys of many rows, the length of their first run, and whether numbers and starts ascend.
pub(crate) fn print_many(alloc: Global, count: u32, out: &mut String) -> Result<(), AllocError> {
    let rows = many_rows(alloc, count)?;
    print_rising(&sorted_list(alloc, &rows, &[0])?, out)
}
