//! Printing of results.

use crate::asking::{Question, ask, instant_of, period_of};
use std::alloc::AllocError;
use std::fmt::Write;
use tq_arena::Meter;
use tq_base::{KeyRange, Period, Rows, Value, ValueRef};
use tq_store::Db;
use tq_tests_script::print_nothing;

// Prints the value, after a comma if it is not the first.
fn print_value(place: usize, value: &Value, out: &mut String) -> Result<(), AllocError> {
    if place > 0 {
        out.push(',')?;
    }
    match value.as_ref() {
        ValueRef::Int(number) => write!(out, "{number}"),
        ValueRef::Text(text) => out.push_str(text),
    }
}

// Prints the period, at the end of a line.
fn print_period(period: &Period, out: &mut String) -> Result<(), AllocError> {
    let start = period.start.number();
    let end = period.end.number();
    writeln!(out, " from {start} to {end}")
}

/// Prints the rows of the query, each with its number.
pub(crate) fn print_rows(db: &Db, question: &Question, out: &mut String) -> Result<(), AllocError> {
    match ask(db, question, &mut Meter::new())? {
        Some(rows) if rows.is_empty() => out.push_str("no rows\n"),
        Some(rows) => {
            for row in &rows {
                write!(out, "row {}: ", row.row)?;
                for (place, value) in row.values.get().iter().enumerate() {
                    print_value(place, value, out)?;
                }
                print_period(&row.period, out)?;
            }
            Ok(())
        }
        None => print_nothing(out),
    }
}

// The query of all rows of the first table at the instant.
fn at_instant(n: i64, at: i64) -> Option<Question> {
    Some(Question {
        n: u32::try_from(n).ok()?,
        table: 0,
        range: KeyRange::new(i64::MIN, i64::MAX)?,
        period: period_of(at, at.checked_add(1)?)?,
    })
}

/// Prints the number of rows of the first table at the instant, and of the nodes that are read for them.
pub(crate) fn print_reads(db: &Db, n: i64, at: i64, out: &mut String) -> Result<(), AllocError> {
    let Some(question) = at_instant(n, at) else {
        return print_nothing(out);
    };
    let mut meter = Meter::new();
    match ask(db, &question, &mut meter)? {
        Some(rows) => {
            let reads = meter.count();
            writeln!(out, "{} rows, {reads} nodes read", rows.len())
        }
        None => print_nothing(out),
    }
}

/// Prints the list's width, and its rows.
pub(crate) fn print_list(rows: &Rows, out: &mut String) -> Result<(), AllocError> {
    let zero = Value::int(0);
    writeln!(out, "{} rows of width {}", rows.len(), rows.width())?;
    for row in 0..rows.len() {
        for place in 0..rows.width() {
            if let Ok(column) = u32::try_from(place) {
                print_value(place, rows.value(row, column).unwrap_or(&zero), out)?;
            }
        }
        print_period(&rows.period(row), out)?;
    }
    Ok(())
}

/// Prints the version of the instant as of the first `n` events.
pub(crate) fn print_version(db: &Db, n: i64, at: i64, out: &mut String) -> Result<(), AllocError> {
    match (u32::try_from(n), instant_of(at)) {
        (Ok(n), Some(at)) if n <= db.count() => writeln!(out, "{}", db.version_at(n, at)),
        _ => print_nothing(out),
    }
}
