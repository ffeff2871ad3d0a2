// The references of `tq check`: their words, and why they are refused.

use crate::headers::catalogue_of;
use crate::report::{Diagnostic, Refusal};
use std::alloc::{AllocError, Global};
use tq_base::{Catalogue, Column, Form, Kind, Schema, is_same_word};
use tq_check::{
    ColumnName, Part, ReferenceFault, ReferenceNames, RefusedReference, read_reference,
};
use tq_event::TableFile;

// The refusal for a word that is not a reference.
fn refused_word(alloc: Global, explain: bool) -> Diagnostic {
    let reason = format!(in alloc;
        "error: --refers takes TABLE.COLUMN=TABLE.COLUMN\n\nFor more information, try '--help'.\n"
    );
    Diagnostic {
        refusal: Refusal::BadCommandLine,
        detail: match reason {
            Ok(reason) if explain => Some(reason.into_bytes()),
            _ => None,
        },
    }
}

/// The references that the words name. A word of another form is a fault of the command line, explained if `explain` is
/// set.
pub fn read_references(
    alloc: Global,
    words: &[Vec<u8>],
    explain: bool,
) -> Result<Vec<ReferenceNames>, Diagnostic> {
    let mut references = Vec::new(alloc);
    'words: for word in words {
        match read_reference(alloc, word)? {
            Some(names) => references.push(names).map_err(AllocError::from)?,
            None => return Err(refused_word(alloc, explain)),
        }
    }
    Ok(references)
}

fn kind_text(kind: Kind) -> &'static [u8] {
    match kind {
        Kind::Int => b"int",
        Kind::Text => b"text",
    }
}

fn name_of(names: &ReferenceNames, part: Part) -> &ColumnName {
    match part {
        Part::Child => &names.child,
        Part::Parent => &names.parent,
    }
}

fn table_named<'a>(catalogue: &'a Catalogue, name: &[u8]) -> Option<&'a Schema> {
    catalogue
        .tables
        .get()
        .iter()
        .find(|table| is_same_word(table.name.bytes(), name))
}

// The columns of the table with this name.
fn columns_named<'a>(catalogue: &'a Catalogue, name: &[u8]) -> &'a [Column] {
    match table_named(catalogue, name) {
        Some(table) => table.columns.get(),
        None => &[],
    }
}

fn push_tables(text: &mut Vec<u8>, catalogue: &Catalogue) -> Result<(), AllocError> {
    'tables: for table in catalogue.tables.get() {
        text.push(b' ')?;
        text.extend_from_slice(table.name.bytes())?;
    }
    Ok(())
}

fn push_columns(text: &mut Vec<u8>, columns: &[Column]) -> Result<(), AllocError> {
    'columns: for column in columns {
        text.push(b' ')?;
        text.extend_from_slice(column.name.bytes())?;
        text.push(b':')?;
        text.extend_from_slice(kind_text(column.kind))?;
    }
    Ok(())
}

fn push_column_name(text: &mut Vec<u8>, name: &ColumnName) -> Result<(), AllocError> {
    text.extend_from_slice(&name.table)?;
    text.push(b'.')?;
    text.extend_from_slice(&name.column)
}

// The word of the reference.
fn push_names(text: &mut Vec<u8>, names: &ReferenceNames) -> Result<(), AllocError> {
    push_column_name(text, &names.child)?;
    text.push(b'=')?;
    push_column_name(text, &names.parent)
}

fn push_unknown_table(
    text: &mut Vec<u8>,
    catalogue: &Catalogue,
    name: &ColumnName,
) -> Result<(), AllocError> {
    text.extend_from_slice(b"no table `")?;
    text.extend_from_slice(&name.table)?;
    text.extend_from_slice(b"`; tables:")?;
    push_tables(text, catalogue)
}

fn push_unknown_column(
    text: &mut Vec<u8>,
    catalogue: &Catalogue,
    name: &ColumnName,
) -> Result<(), AllocError> {
    text.extend_from_slice(b"no column `")?;
    text.extend_from_slice(&name.column)?;
    text.extend_from_slice(b"` in table `")?;
    text.extend_from_slice(&name.table)?;
    text.extend_from_slice(b"`; columns:")?;
    push_columns(text, columns_named(catalogue, &name.table))
}

// The reference, and what is wrong with it. The tables and columns are listed.
fn fault_text(
    alloc: Global,
    catalogue: &Catalogue,
    names: &ReferenceNames,
    fault: ReferenceFault,
) -> Result<Vec<u8>, AllocError> {
    let mut text = Vec::new(alloc);
    push_names(&mut text, names)?;
    text.extend_from_slice(b": ")?;
    match fault {
        ReferenceFault::UnknownTable(part) => {
            push_unknown_table(&mut text, catalogue, name_of(names, part))?
        }
        ReferenceFault::UnknownColumn(part) => {
            push_unknown_column(&mut text, catalogue, name_of(names, part))?
        }
        ReferenceFault::KindMismatch => {
            text.extend_from_slice(b"one column is an int, the other is a text")?
        }
        ReferenceFault::OutOfMemory => return Err(AllocError),
    }
    Ok(text)
}

/// The refusal for the names of a reference that is not one. `headers` are the header lines of the tables' files.
pub fn refused_reference(
    alloc: Global,
    refused: RefusedReference,
    names: &[ReferenceNames],
    headers: Option<Vec<TableFile>>,
    form: Form,
) -> Refusal {
    let RefusedReference { number, fault } = refused;
    let (Some(names), Some(headers)) = (names.get(number), headers) else {
        return Refusal::OutOfMemory;
    };
    let Some(catalogue) = catalogue_of(alloc, headers, form) else {
        return Refusal::OutOfMemory;
    };
    match fault_text(alloc, &catalogue, names, fault) {
        Ok(text) => Refusal::Reference(text),
        Err(error) => Refusal::from(error),
    }
}
