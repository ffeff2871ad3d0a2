//! Printing of events, rows and values.

use std::alloc::{AllocError, Global};
use std::fmt::Write;
use tq_base::{Rows, Value, ValueRef};
use tq_event::Event;

/// Prints the values, with a space before each; a line end in a text as \n.
pub(crate) fn print_values(values: &[Value], out: &mut String) -> Result<(), AllocError> {
    for value in values {
        print_value(value, out)?;
    }
    Ok(())
}

// Prints the value, with a space before it.
fn print_value(value: &Value, out: &mut String) -> Result<(), AllocError> {
    match value.as_ref() {
        ValueRef::Int(number) => write!(out, " {number}"),
        ValueRef::Text(text) => {
            out.push(' ')?;
            print_text(text, out)
        }
    }
}

fn print_text(text: &str, out: &mut String) -> Result<(), AllocError> {
    for letter in text.chars() {
        match letter {
            '\n' => out.push_str("\\n")?,
            _ => out.push(letter)?,
        }
    }
    Ok(())
}

fn print_event(event: &Event, out: &mut String) -> Result<(), AllocError> {
    match event {
        Event::Start { table, values, at } => {
            write!(out, "start {table}:")?;
            print_values(values.get(), out)?;
            writeln!(out, " at {}", at.number())
        }
        Event::End { table, row, at } => {
            writeln!(out, "end {table}: row {row} at {}", at.number())
        }
    }
}

/// Prints a line for each event.
pub(crate) fn print_events(events: &[Event], out: &mut String) -> Result<(), AllocError> {
    for event in events {
        print_event(event, out)?;
    }
    Ok(())
}

/// Prints whether copies of the events print as the events do.
pub(crate) fn print_copied(
    alloc: Global,
    events: &[Event],
    out: &mut String,
) -> Result<(), AllocError> {
    let mut printed = String::new(alloc);
    let mut again = String::new(alloc);
    for event in events {
        print_event(event, &mut printed)?;
        let copy = event.try_copy()?;
        print_event(&copy, &mut again)?;
    }
    let are_same = printed.as_str() == again.as_str();
    writeln!(out, "{} copies, told as they are: {are_same}", events.len())
}

/// Prints a line for each row of a table.
pub(crate) fn print_rows(table: usize, rows: &Rows, out: &mut String) -> Result<(), AllocError> {
    let zero = Value::int(0);
    for row in 0..rows.len() {
        write!(out, "row of {table}:")?;
        for column in 0..rows.width() {
            if let Ok(column) = u32::try_from(column) {
                print_value(rows.value(row, column).unwrap_or(&zero), out)?;
            }
        }
        let period = rows.periods()[row];
        let start = period.start.number();
        let end = period.end.number();
        writeln!(out, " from {start} to {end}")?;
    }
    Ok(())
}
