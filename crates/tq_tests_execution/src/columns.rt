//! The columns of tables that a statement names.

use crate::fault::Fault;
use std::alloc::{AllocError, Global};
use std::fmt::Write;
use std::str;
use tq_base::{Form, Name, Schema};
use tq_event::{MAX_EVENTS, TableFile, load_tables};
use tq_exec::required_columns;
use tq_plan::plan;
use tq_sql::read;

fn text_of(name: &Name) -> &str {
    str::from_utf8(name.bytes()).unwrap_or("no text")
}

// Prints the table and its wanted columns.
fn print_table(schema: &Schema, wanted: &[bool], out: &mut String) -> Result<(), AllocError> {
    write!(out, "{}:", text_of(&schema.name))?;
    for (column, wanted) in schema.columns.get().iter().zip(wanted) {
        if *wanted {
            write!(out, " {}", text_of(&column.name))?;
        }
    }
    out.push('\n')
}

/// Prints the columns of each table of the files that the statement names.
pub(crate) fn print_columns(
    alloc: Global,
    files: Vec<TableFile>,
    statement: &str,
    out: &mut String,
) -> Result<(), Fault> {
    let tables = load_tables(alloc, files, MAX_EVENTS, Form::Numbers)?;
    let statement = read(alloc, statement.as_bytes())?;
    let plan = plan(alloc, &tables.catalogue, &statement, Form::Numbers)?;
    let wanted = required_columns(alloc, &tables.catalogue, &plan)?;
    for (schema, wanted) in tables.catalogue.tables.get().iter().zip(&wanted) {
        print_table(schema, wanted, out)?;
    }
    Ok(())
}
