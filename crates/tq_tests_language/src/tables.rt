//! The contents of files, and their printing.

use crate::events::{print_copied, print_events, print_rows, print_values};
use std::alloc::{AllocError, Global};
use std::fmt::Write;
use std::str;
use tq_base::{Catalogue, Column, Form, Kind};
use tq_event::{MAX_EVENTS, TableFile, load, load_tables, read_values};
use tq_tests_script::print_nothing;

/// Prints the events of the files, at most `limit`, or their first fault.
pub(crate) fn print_load(
    alloc: Global,
    files: Vec<TableFile>,
    limit: u32,
    out: &mut String,
) -> Result<(), AllocError> {
    match load(alloc, files, limit.min(MAX_EVENTS), Form::Numbers) {
        Ok(loaded) => {
            let tables = loaded.catalogue.tables.get().len();
            let events = loaded.events.get().len();
            writeln!(out, "{tables} tables, {events} events")?;
            print_events(loaded.events.get(), out)
        }
        Err(fault) => writeln!(out, "{fault}"),
    }
}

/// Prints the rows of the tables of the files, with at most `limit` events, or their first fault.
pub(crate) fn print_tables(
    alloc: Global,
    files: Vec<TableFile>,
    limit: u32,
    out: &mut String,
) -> Result<(), AllocError> {
    match load_tables(alloc, files, limit.min(MAX_EVENTS), Form::Numbers) {
        Ok(loaded) => {
            writeln!(out, "{} tables", loaded.rows.get().len())?;
            for (table, rows) in loaded.rows.get().iter().enumerate() {
                print_rows(table, rows, out)?;
            }
            Ok(())
        }
        Err(fault) => writeln!(out, "{fault}"),
    }
}

// The catalogue of valid files.
fn catalogue_of(alloc: Global, files: Vec<TableFile>) -> Option<Catalogue> {
    match load(alloc, files, 1_000, Form::Numbers) {
        Ok(loaded) => Some(loaded.catalogue),
        Err(_) => None,
    }
}

// Prints the bytes of a name.
fn print_name(name: &[u8], out: &mut String) -> Result<(), AllocError> {
    out.push_str(str::from_utf8(name).unwrap_or("no text"))
}

fn print_columns_of(columns: &[Column], out: &mut String) -> Result<(), AllocError> {
    for column in columns {
        out.push(' ')?;
        print_name(column.name.bytes(), out)?;
        out.push_str(match column.kind {
            Kind::Int => ":int",
            Kind::Text => ":text",
        })?;
    }
    Ok(())
}

/// Prints the tables of the files, and their columns.
pub(crate) fn print_columns(
    alloc: Global,
    files: Vec<TableFile>,
    out: &mut String,
) -> Result<(), AllocError> {
    let Some(catalogue) = catalogue_of(alloc, files) else {
        return print_nothing(out);
    };
    for table in catalogue.tables.get() {
        print_name(table.name.bytes(), out)?;
        print_columns_of(table.columns.get(), out)?;
        out.push('\n')?;
    }
    Ok(())
}

/// Prints the number of the table with this name.
pub(crate) fn print_number(
    alloc: Global,
    files: Vec<TableFile>,
    name: &str,
    out: &mut String,
) -> Result<(), AllocError> {
    let Some(catalogue) = catalogue_of(alloc, files) else {
        return print_nothing(out);
    };
    match catalogue.table(name.as_bytes()) {
        Some(number) => writeln!(out, "{number}"),
        None => out.push_str("none\n"),
    }
}

/// Prints whether copies of the files' events print as the events do.
pub(crate) fn print_copies(
    alloc: Global,
    files: Vec<TableFile>,
    out: &mut String,
) -> Result<(), AllocError> {
    match load(alloc, files, 1_000, Form::Numbers) {
        Ok(loaded) => print_copied(alloc, loaded.events.get(), out),
        Err(_) => print_nothing(out),
    }
}

/// Prints the values of the bytes as one record for the first table of the files.
pub(crate) fn print_record(
    alloc: Global,
    files: Vec<TableFile>,
    bytes: &[u8],
    out: &mut String,
) -> Result<(), AllocError> {
    let Some(catalogue) = catalogue_of(alloc, files) else {
        return print_nothing(out);
    };
    let [schema, ..] = catalogue.tables.get() else {
        return print_nothing(out);
    };
    match read_values(alloc, schema, bytes)? {
        Some(values) => {
            out.push_str("values:")?;
            print_values(values.get(), out)?;
            out.push('\n')
        }
        None => out.push_str("no row\n"),
    }
}
