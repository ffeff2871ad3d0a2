//! Rows that store only some columns.

use crate::lists::fragment_of;
use crate::words::{push_period, push_value};
use std::alloc::{AllocError, Global};
use std::fmt::Write;
use tq_base::{Column, Fragment, Kind, Relation, Rows, Value, fold_name};

// The kind of the column of a letter, and whether it is stored.
fn column_of(letter: u8) -> Option<(Kind, bool)> {
    match letter {
        b'N' => Some((Kind::Int, true)),
        b'n' => Some((Kind::Int, false)),
        b'T' => Some((Kind::Text, true)),
        b't' => Some((Kind::Text, false)),
        _ => None,
    }
}

// A list without rows, with the columns of the letters.
fn no_rows(alloc: Global, letters: &str) -> Result<Rows, AllocError> {
    let mut columns = Vec::new(alloc);
    let mut kept = Vec::new(alloc);
    for letter in letters.as_bytes() {
        if let (Some((kind, is_kept)), Some(name)) = (column_of(*letter), fold_name(alloc, b"c")?) {
            columns.push(Column { name, kind })?;
            kept.push(is_kept)?;
        }
    }
    Rows::with_columns(alloc, &columns, &kept)
}

// Copies of the values.
fn copies(alloc: Global, values: &[Value]) -> Result<Vec<Value>, AllocError> {
    let mut copied = Vec::new(alloc);
    for value in values {
        copied.push(value.try_copy()?)?;
    }
    Ok(copied)
}

fn push_answer(taken: bool, out: &mut String) -> Result<(), AllocError> {
    out.push_str(if taken { " taken" } else { " refused" })
}

// Prints whether the row is taken, first copied and then moved.
fn print_push(
    alloc: Global,
    row: &Fragment,
    rows: &mut Rows,
    out: &mut String,
) -> Result<(), AllocError> {
    let mut values = copies(alloc, row.values.get())?;
    if values.len() != rows.width() {
        return Ok(());
    }
    let copied = rows.push_copy(&values, row.period).is_ok();
    let moved = rows.push(&mut values, row.period).is_ok();
    push_answer(copied, out)?;
    push_answer(moved, out)?;
    if moved != values.is_empty() {
        out.push_str(" but its values")?;
    }
    Ok(())
}

// Whether the value of the row in the column is this one, both in the rows and in a relation.
fn is_there(
    rows: &Rows,
    relation: &Relation<'_>,
    number: usize,
    column: usize,
    value: &Value,
) -> bool {
    let Ok(stored) = u32::try_from(column) else {
        return false;
    };
    if number >= rows.len() || number >= relation.len() {
        return false;
    }
    let zero = Value::int(0);
    let lent = rows.value(number, stored).unwrap_or(&zero);
    lent == value && relation.row(number).value(column) == value
}

// Prints the row as `show` gives it, and which of its values differ when borrowed.
fn print_row(
    alloc: Global,
    rows: &Rows,
    relation: &Relation<'_>,
    number: usize,
    out: &mut String,
) -> Result<(), AllocError> {
    if number >= rows.len() {
        return Ok(());
    }
    let mut shown = Vec::new(alloc);
    rows.show(number, &mut shown)?;
    for (column, value) in shown.iter().enumerate() {
        push_value(value, out)?;
        if !is_there(rows, relation, number, column, value) {
            out.push_str("otherwise,")?;
        }
    }
    push_period(&rows.period(number), out)?;
    out.push('\n')
}

// Prints the rows one by one.
fn print_rows(alloc: Global, rows: &Rows, out: &mut String) -> Result<(), AllocError> {
    let relation = Relation::of(alloc, rows)?;
    writeln!(out, "{} rows of width {}", rows.len(), rows.width())?;
    for number in 0..rows.len() {
        print_row(alloc, rows, &relation, number, out)?;
    }
    Ok(())
}

// Prints whether a list with the other letters takes the last row of the list, and whether both are appended.
fn print_other(
    alloc: Global,
    rows: Rows,
    letters: &str,
    out: &mut String,
) -> Result<(), AllocError> {
    let mut other = no_rows(alloc, letters)?;
    if other.width() != rows.width() || rows.len() == 0 {
        return Ok(());
    }
    let last = rows.len() - 1;
    write!(out, "{letters}:")?;
    push_answer(other.push_row(&rows, last).is_ok(), out)?;
    match rows.followed_by(other) {
        Ok(all) => {
            push_answer(true, out)?;
            out.push('\n')?;
            print_rows(alloc, &all, out)
        }
        Err(_) => {
            push_answer(false, out)?;
            out.push('\n')
        }
    }
}

// The list of these rows, with the columns of the letters.
fn kept_rows(
    alloc: Global,
    letters: &str,
    words: &[&str],
    out: &mut String,
) -> Result<Rows, AllocError> {
    let mut rows = no_rows(alloc, letters)?;
    for word in words {
        write!(out, "{word}:")?;
        if let Some(row) = fragment_of(alloc, word)? {
            print_push(alloc, &row, &mut rows, out)?;
        }
        out.push('\n')?;
    }
    Ok(rows)
}

/// Prints which rows a list takes that stores some columns, copied and then moved, and the rows that it has. Then
/// prints whether a list that stores other columns takes the last of them, and whether both are appended.
pub(crate) fn print_kept(
    alloc: Global,
    letters: &str,
    others: &str,
    words: &[&str],
    out: &mut String,
) -> Result<(), AllocError> {
    let rows = kept_rows(alloc, letters, words, out)?;
    print_rows(alloc, &rows, out)?;
    print_other(alloc, rows, others, out)
}
