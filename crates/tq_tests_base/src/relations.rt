//! Relations: rows by their numbers in other lists of rows.

use crate::lists::rows_of;
use crate::words::{push_period, push_value};
use std::alloc::{AllocError, Global};
use tq_base::{Pair, Period, Relation, RowPeriod, Rows};
use tq_tests_script::print_nothing;

fn print_row(relation: &Relation<'_>, number: usize, out: &mut String) -> Result<(), AllocError> {
    if number >= relation.len() {
        return Ok(());
    }
    let row = relation.row(number);
    for column in 0..row.len() {
        push_value(row.value(column), out)?;
    }
    push_period(&relation.period(number), out)?;
    out.push('\n')
}

// Prints the rows in order: the values, from and to, separated by commas, a line each.
fn print(relation: &Relation<'_>, out: &mut String) -> Result<(), AllocError> {
    for number in 0..relation.len() {
        print_row(relation, number, out)?;
    }
    Ok(())
}

/// Prints the rows of a relation that borrows the list.
pub(crate) fn print_lent(alloc: Global, rows: &Rows, out: &mut String) -> Result<(), AllocError> {
    print(&Relation::of(alloc, rows)?, out)
}

/// Prints the rows of a relation that owns a list of such rows.
pub(crate) fn print_owned(
    alloc: Global,
    width: usize,
    words: &[&str],
    out: &mut String,
) -> Result<(), AllocError> {
    print(&Relation::owned(alloc, rows_of(alloc, width, words)?)?, out)
}

/// Prints the last of three rows, then the first one twice, with other periods.
pub(crate) fn print_picked(
    alloc: Global,
    rows: &Rows,
    [one, two, three]: [Period; 3],
    out: &mut String,
) -> Result<(), AllocError> {
    if rows.len() < 3 {
        return print_nothing(out);
    }
    let lines = [
        RowPeriod {
            row: 2,
            period: one,
        },
        RowPeriod {
            row: 0,
            period: two,
        },
        RowPeriod {
            row: 0,
            period: three,
        },
    ];
    print(
        &Relation::of(alloc, rows)?.take_row_periods(alloc, &lines)?,
        out,
    )
}

// The last row of the left with the second of the right, and the first with the second.
fn paired<'a>(
    alloc: Global,
    left: &'a Rows,
    right: &'a Rows,
    at: Period,
) -> Result<Option<Relation<'a>>, AllocError> {
    if left.len() < 3 || right.len() < 2 {
        return Ok(None);
    }
    let lefts = Relation::of(alloc, left)?;
    let rights = Relation::of(alloc, right)?;
    let pairs = [
        Pair {
            left: 2,
            right: 1,
            period: at,
        },
        Pair {
            left: 0,
            right: 1,
            period: at,
        },
    ];
    Ok(Some(Relation::pair(alloc, lefts, rights, &pairs)?))
}

// The second pair with the second row, and the first with the first.
fn paired_again<'a>(
    alloc: Global,
    both: Relation<'a>,
    rows: &'a Rows,
    at: Period,
) -> Result<Option<Relation<'a>>, AllocError> {
    if both.len() < 2 || rows.len() < 2 {
        return Ok(None);
    }
    let again = Relation::of(alloc, rows)?;
    let pairs = [
        Pair {
            left: 1,
            right: 1,
            period: at,
        },
        Pair {
            left: 0,
            right: 0,
            period: at,
        },
    ];
    Ok(Some(Relation::pair(alloc, both, again, &pairs)?))
}

// Those pairs with their columns in another order; a missing column has the number 0.
fn turned<'a>(
    alloc: Global,
    both: Relation<'a>,
    rows: &'a Rows,
    at: Period,
) -> Result<Option<Relation<'a>>, AllocError> {
    match paired_again(alloc, both, rows, at)? {
        Some(all) => Ok(Some(all.project(alloc, &[5, 3, 1, 0, 9, 2])?)),
        None => Ok(None),
    }
}

/// Prints pairs of rows of two lists, each followed by a row of the left, with columns in another order. A missing
/// column has the number 0.
pub(crate) fn print_pairs(
    alloc: Global,
    left: &Rows,
    right: &Rows,
    at: Period,
    out: &mut String,
) -> Result<(), AllocError> {
    let Some(both) = paired(alloc, left, right, at)? else {
        return print_nothing(out);
    };
    match turned(alloc, both, left, at)? {
        Some(turned) => print(&turned.to_owned(alloc)?, out),
        None => print_nothing(out),
    }
}
