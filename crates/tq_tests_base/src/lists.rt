//! Parsing and printing of lists of rows.

ghost use Rattle.std.specs.Prelude.{◌<◌, length};

use crate::words::{period_between, period_of, push_period, push_value, values_of};
use std::alloc::{AllocError, Global};
use std::fmt::Write;
use tq_base::{Fragment, Instant, Period, Rows, Value, Values};

/// Adds a copy of the row at the end, if it has the width of the rows.
pub(crate) fn push_row(
    rows: &mut Rows,
    values: &[Value],
    period: &Period,
) -> Result<(), AllocError> {
    if values.len() == rows.width() {
        rows.push_copy(values, *period)?;
    }
    Ok(())
}

/// The fragment of a word: values and a period, separated by commas.
pub(crate) fn fragment_of(alloc: Global, word: &str) -> Result<Option<Fragment>, AllocError> {
    let parts: Vec<&str> = word.split(',').collect(alloc)?;
    match parts.as_slice() {
        [values @ .., start, end] => match period_of(start, end) {
            Some(period) => Ok(Some(Fragment {
                values: Values::of(values_of(alloc, values)?),
                period,
            })),
            None => Ok(None),
        },
        _ => Ok(None),
    }
}

// Adds n copies of the row, if it has the width of the rows.
fn push_copies(rows: &mut Rows, row: &Fragment, n: usize) -> Result<(), AllocError> {
    for _ in 0..n {
        push_row(rows, row.values.get(), &row.period)?;
    }
    Ok(())
}

/// Rows with this width, one for each word, or several of a word, as `29*7,1,2`.
pub(crate) fn rows_of(alloc: Global, width: usize, words: &[&str]) -> Result<Rows, AllocError> {
    let mut rows = Rows::new(alloc, width);
    for word in words {
        let (count, row) = word.split_once('*').unwrap_or(("1", *word));
        if let Some(row) = fragment_of(alloc, row)? {
            push_copies(&mut rows, &row, count.parse().unwrap_or(0))?;
        }
    }
    Ok(rows)
}

/// Rows of the numbers from 0 on, each valid from its number for `length` instants.
pub(crate) fn rising(alloc: Global, count: u32, length: u64) -> Result<Rows, AllocError> {
    let mut rows = Rows::new(alloc, 1);
    for number in 0..count {
        let start = u64::from(number);
        if let Some(period) = period_between(start, start.saturating_add(length)) {
            push_row(&mut rows, &[Value::int(i64::from(number))], &period)?;
        }
    }
    Ok(rows)
}

fn shown(alloc: Global, rows: &Rows, number: usize) -> Result<Values, AllocError>
    requires { number < length rows.now.items }
{
    let mut values = Vec::new(alloc);
    rows.show(number, &mut values)?;
    Ok(Values::of(values))
}

// The rows, one by one.
fn fragments_of(alloc: Global, rows: &Rows) -> Result<Vec<Fragment>, AllocError> {
    let mut fragments = Vec::new(alloc);
    for number in 0..rows.len() {
        fragments.push(Fragment {
            values: shown(alloc, rows, number)?,
            period: rows.period(number),
        })?;
    }
    Ok(fragments)
}

fn push_fragment(row: &Fragment, out: &mut String) -> Result<(), AllocError> {
    for value in row.values.get() {
        push_value(value, out)?;
    }
    push_period(&row.period, out)?;
    out.push('\n')
}

/// Prints the rows in order: the values, from and to, separated by commas, a line each.
pub(crate) fn show(alloc: Global, rows: &Rows, out: &mut String) -> Result<(), AllocError> {
    let mut fragments = fragments_of(alloc, rows)?;
    if fragments.is_empty() {
        return out.push_str("no rows\n");
    }
    fragments.sort_unstable();
    for row in &fragments {
        push_fragment(row, out)?;
    }
    Ok(())
}

/// Prints how many of the rows are valid at each instant from 0 on, one digit an instant.
pub(crate) fn show_counts(rows: &Rows, instants: u64, out: &mut String) -> Result<(), AllocError> {
    for number in 0..instants {
        if let Some(instant) = Instant::new(number) {
            let periods = rows.periods().iter();
            let count = periods.filter(|period| period.holds(instant)).count();
            write!(out, "{count}")?;
        }
    }
    out.push('\n')
}
