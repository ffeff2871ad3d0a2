//! Rows that are pushed and copied.

use crate::lists::push_row;
use crate::words::{period_between, push_value, text_of};
use std::alloc::{AllocError, Global};
use std::fmt::Write;
use tq_base::{Rows, Value};

// Three numbers from this one on.
fn numbers(alloc: Global, first: i64) -> Result<Vec<Value>, AllocError> {
    let mut row = Vec::new(alloc);
    for more in 0..3 {
        row.push(Value::int(first.wrapping_add(more)))?;
    }
    Ok(row)
}

// Pushes a row of numbers from `number` on and copies another row. Whether the values of the first were moved.
fn push_two(alloc: Global, number: u32, rows: &mut Rows) -> Result<bool, AllocError> {
    let start = u64::from(number);
    let Some(period) = period_between(start, start.saturating_add(9)) else {
        return Ok(false);
    };
    let mut row = numbers(alloc, i64::from(number))?;
    if row.len() == rows.width() {
        rows.push(&mut row, period)?;
    }
    push_row(rows, &numbers(alloc, -5)?, &period)?;
    Ok(row.is_empty())
}

// Whether the row is the one that was pushed at its place.
fn is_as_pushed(alloc: Global, rows: &Rows, number: usize) -> Result<bool, AllocError> {
    if number >= rows.len() {
        return Ok(false);
    }
    let start = number as u64 / 2;
    let first = if number % 2 == 0 { start as i64 } else { -5 };
    let mut values = Vec::new(alloc);
    rows.show(number, &mut values)?;
    let same = values.as_slice() == numbers(alloc, first)?.as_slice();
    Ok(same && Some(rows.period(number)) == period_between(start, start.saturating_add(9)))
}

// How many of the rows are not those that were pushed at their places.
fn differing(alloc: Global, rows: &Rows) -> Result<u32, AllocError> {
    let mut count: u32 = 0;
    for number in 0..rows.len() {
        let same = is_as_pushed(alloc, rows, number)?;
        count = count.saturating_add(u32::from(!same));
    }
    Ok(count)
}

/// Pushes `count` rows and copies as many. Prints how many rows there are, how wide they are, whether each was moved,
/// and how many differ.
pub(crate) fn print_pushed(alloc: Global, count: u32, out: &mut String) -> Result<(), AllocError> {
    let mut rows = Rows::new(alloc, 3);
    let mut all_taken = true;
    for number in 0..count {
        let taken = push_two(alloc, number, &mut rows)?;
        all_taken = all_taken && taken;
    }
    let differing = differing(alloc, &rows)?;
    writeln!(out, "{} rows of width {}", rows.len(), rows.width())?;
    writeln!(
        out,
        "{} periods, each taken: {all_taken}",
        rows.periods().len()
    )?;
    writeln!(out, "{differing} are others")
}

/// Prints how many rows without values there are before and after `count` are pushed.
pub(crate) fn print_empty(alloc: Global, count: u32, out: &mut String) -> Result<(), AllocError> {
    let mut rows = Rows::new(alloc, 0);
    writeln!(out, "{} rows", rows.len())?;
    for start in 0..count {
        if let Some(period) = period_between(u64::from(start), 9) {
            push_row(&mut rows, &[], &period)?;
        }
    }
    writeln!(out, "{} rows", rows.len())
}

// A row with a copy of the text, which is freed.
fn copied_text(alloc: Global, word: &str) -> Result<Rows, AllocError> {
    let mut rows = Rows::new(alloc, 1);
    let text = Value::text(alloc, text_of(alloc, word)?.as_str())?;
    if let Some(period) = period_between(0, 9) {
        push_row(&mut rows, &[text], &period)?;
    }
    Ok(rows)
}

/// Prints the values of a row whose text was freed.
pub(crate) fn print_copied(alloc: Global, word: &str, out: &mut String) -> Result<(), AllocError> {
    let rows = copied_text(alloc, word)?;
    for number in 0..rows.len() {
        if let Some(value) = rows.value(number, 0) {
            push_value(value, out)?;
        }
        out.push('\n')?;
    }
    Ok(())
}
