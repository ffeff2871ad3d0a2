//! Printing of rows.

use std::alloc::{AllocError, Global};
use std::fmt::Write;
use tq_base::{Value, ValueRef};

fn push_value(value: &Value, out: &mut String) -> Result<(), AllocError> {
    match value.as_ref() {
        ValueRef::Int(number) => write!(out, "{number}"),
        ValueRef::Text(text) => out.push_str(text),
    }
}

/// The values of a row, separated by commas.
pub(crate) fn line_of(alloc: Global, row: &[Value]) -> Result<String, AllocError> {
    let mut line = String::new(alloc);
    for (place, value) in row.iter().enumerate() {
        if place > 0 {
            line.push(',')?;
        }
        push_value(value, &mut line)?;
    }
    Ok(line)
}

/// Prints the rows at an instant, separated by semicolons.
pub(crate) fn print_rows(
    instant: u64,
    lines: &[String],
    out: &mut String,
) -> Result<(), AllocError> {
    write!(out, "{instant}:")?;
    if lines.is_empty() {
        return out.push_str(" nothing\n");
    }
    for (place, line) in lines.iter().enumerate() {
        out.push_str(if place > 0 { "; " } else { " " })?;
        out.push_str(line.as_str())?;
    }
    out.push('\n')
}
