//! The rows that a table takes, and the place of a table among others.

use crate::words::{row_of, value_of};
use std::alloc::{AllocError, Global};
use std::fmt::Write;
use std::str;
use tq_base::{Catalogue, Column, Kind, List, Name, Schema, fold_name};
use tq_tests_script::print_nothing;

/// Prints whether a column of numbers takes the value, and whether one of texts does.
pub(crate) fn print_takes(alloc: Global, word: &str, out: &mut String) -> Result<(), AllocError> {
    let value = value_of(alloc, word)?;
    let number = Kind::Int.takes(&value);
    let text = Kind::Text.takes(&value);
    writeln!(out, "as a number: {number}, as a text: {text}")
}

fn column(alloc: Global, name: &[u8], kind: Kind) -> Result<Option<Column>, AllocError> {
    Ok(fold_name(alloc, name)?.map(|name| Column { name, kind }))
}

fn columns(alloc: Global) -> Result<List<Column>, AllocError> {
    let mut columns = Vec::new(alloc);
    for (name, kind) in [(b"k".as_slice(), Kind::Int), (b"note", Kind::Text)] {
        if let Some(column) = column(alloc, name, kind)? {
            columns.push(column)?;
        }
    }
    Ok(List::of(columns))
}

// A table of a number and a text.
fn table(alloc: Global, name: &[u8]) -> Result<Option<Schema>, AllocError> {
    let columns = columns(alloc)?;
    Ok(fold_name(alloc, name)?.map(|name| Schema { name, columns }))
}

/// Prints whether a table of a number and a text takes the row.
pub(crate) fn print_fits(alloc: Global, word: &str, out: &mut String) -> Result<(), AllocError> {
    let row = row_of(alloc, word)?;
    match table(alloc, b"emp")? {
        Some(table) => writeln!(out, "{}", table.fits(&row)),
        None => print_nothing(out),
    }
}

// A copy of a catalogue of two tables.
fn catalogue(alloc: Global) -> Result<Option<Catalogue>, AllocError> {
    let (Some(emp), Some(dept)) = (table(alloc, b"Emp")?, table(alloc, b"dept")?) else {
        return Ok(None);
    };
    let tables = List::of(vec![in alloc; emp, dept]?);
    Ok(Some(Catalogue { tables }.try_copy(alloc)?))
}

fn push_name(name: &Name, out: &mut String) -> Result<(), AllocError> {
    out.push_str(str::from_utf8(name.bytes()).unwrap_or("no text"))
}

fn print_column(table: &Schema, column: &Column, out: &mut String) -> Result<(), AllocError> {
    out.push_str("last column: ")?;
    push_name(&table.name, out)?;
    out.push('.')?;
    push_name(&column.name, out)?;
    writeln!(out, " {:?}", column.kind)
}

fn print_number(number: Option<u32>, out: &mut String) -> Result<(), AllocError> {
    match number {
        Some(number) => writeln!(out, "{number}"),
        None => out.push_str("none\n"),
    }
}

/// Prints the number of this table among two, and the last column of the last one.
pub(crate) fn print_table(alloc: Global, name: &str, out: &mut String) -> Result<(), AllocError> {
    let Some(catalogue) = catalogue(alloc)? else {
        return print_nothing(out);
    };
    print_number(catalogue.table(name.as_bytes()), out)?;
    if let Some(table) = catalogue.tables.get().last() {
        if let Some(column) = table.columns.get().last() {
            print_column(table, column, out)?;
        }
    }
    Ok(())
}
