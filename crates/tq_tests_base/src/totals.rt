//! Totals of rows, and periods of the calendar.

use crate::drawing::{numbers_in, print_lines};
use crate::output::{lines, table_of};
use std::alloc::{AllocError, Global};
use tq_base::{Form, Rows, read_instant};
use tq_totals::{TotalsFault, Unit, calendar, totals_csv};

fn push_numbers(out: &mut String, word: &str, numbers: &[u64]) -> Result<(), AllocError> {
    out.push_str(word)?;
    for number in numbers {
        out.push(' ')?;
        out.push_str(itoa::Buffer::new().format(*number))?;
    }
    out.push('\n')
}

fn print_fault(fault: TotalsFault, out: &mut String) -> Result<(), AllocError> {
    match fault {
        TotalsFault::OpenEnd { row } => push_numbers(out, "open end", &[row]),
        TotalsFault::Text { column, row } => push_numbers(out, "text", &[u64::from(column), row]),
        TotalsFault::Overflow { column } => push_numbers(out, "overflow", &[u64::from(column)]),
        TotalsFault::OutOfMemory => Err(AllocError),
    }
}

/// Prints the totals of a table of the rows, with the decimal places that `places` lists for the columns. The first `groups`
/// columns group the rows, and the others are summed.
pub(crate) fn print_totals(
    alloc: Global,
    rows: &Rows,
    groups: &str,
    places: &str,
    names: &[&str],
    out: &mut String,
) -> Result<(), AllocError> {
    let table = table_of(alloc, lines(alloc, rows)?, names)?;
    let columns = u32::try_from(names.len()).unwrap_or(u32::MAX);
    let all: Vec<u32> = (0..columns).collect(alloc)?;
    let (by, summed) = all.split_at(groups.parse().unwrap_or(0).min(all.len()));
    match totals_csv(alloc, &table, by, summed, &numbers_in(alloc, places)?) {
        Ok(text) => print_lines(&text, out),
        Err(fault) => print_fault(fault, out),
    }
}

// The unit with this name.
fn unit_of(name: &str) -> Option<Unit> {
    match name {
        "month" => Some(Unit::Month),
        "quarter" => Some(Unit::Quarter),
        "year" => Some(Unit::Year),
        _ => None,
    }
}

/// Prints the table of the calendar's periods between two dates.
pub(crate) fn print_calendar(
    alloc: Global,
    unit: &str,
    start: &str,
    end: &str,
    out: &mut String,
) -> Result<(), AllocError> {
    let start = read_instant(start.as_bytes(), Form::Dates);
    let end = read_instant(end.as_bytes(), Form::Dates);
    match (unit_of(unit), start, end) {
        (Some(unit), Some(start), Some(end)) => {
            print_lines(&calendar(alloc, unit, start, end)?, out)
        }
        _ => out.push_str("no calendar\n"),
    }
}
