//! Tables and their columns.

ghost use Rattle.std.specs.Prelude.{◌≡◌, ◌↔◌, ◌<◌, ◌≤◌, IfOk, IfSome, IsTrue, length, position};
ghost use Rattle.std.specs.Str.{str_eq_ignore_ascii_case};

use crate::list::List;
use crate::name::{Name, is_same_word};
use crate::value::{Value, ValueRef};
use crate::values::Values;
use std::alloc::{AllocError, Global};

/// The most bytes that a text of a table has.
pub const MAX_TEXT: usize = 1_000;

/// The kind of a column: integers of 64 signed bits, or texts of at most 1,000 bytes.
#[derive(Clone, Copy, PartialEq, Eq, Debug)]
pub enum Kind {
    Int,
    Text,
}

/// A column: its name and its kind.
#[derive(Drop, Debug)]
pub struct Column {
    pub name: Name,
    pub kind: Kind,
}

/// A table's name and columns.
#[derive(Drop, Debug)]
pub struct Schema {
    pub name: Name,
    pub columns: List<Column>,
}

/// All tables, at most 16, numbered from 0.
#[derive(Drop, Debug)]
pub struct Catalogue {
    pub tables: List<Schema>,
    ghost few: { length tables ≤ 16 },
}

impl Kind {
    ghost use Rattle.tq_base.specs.Catalogues.{IsOfKind};

    /// Whether a column of this kind takes the value.
    pub fn takes(self, value: &Value) -> bool
        ensures { IsTrue result ↔ IsOfKind self value.now }
    {
        match (self, value.as_ref()) {
            (Kind::Int, ValueRef::Int(number)) => i64::try_from(number).is_ok(),
            (Kind::Text, ValueRef::Text(text)) => text.len() <= MAX_TEXT,
            _ => false,
        }
    }
}

impl Schema {
    ghost use Rattle.tq_base.specs.Catalogues.{Fit};

    /// Whether the values are a row of the table: one value for each column, of its kind and size.
    pub fn fits(&self, values: &Values) -> bool
        ensures { IsTrue result ↔ Fit self.now.columns values.now }
    {
        let columns = self.columns.get();
        let values = values.get();
        if values.len() != columns.len() {
            return false;
        }
        'places: for (place, column) in columns.iter().enumerate() {
            if !column.kind.takes(&values[place]) {
                return false;
            }
        }
        true
    }
}

fn copy_columns(alloc: Global, columns: &[Column]) -> Result<List<Column>, AllocError>
    ensures { IfOk result (λ copy. copy ≡ columns.now) }
{
    let mut copy = Vec::with_capacity(alloc, columns.len())?;
    for column in columns {
        copy.push(Column {
            name: column.name.try_copy()?,
            kind: column.kind,
        })?;
    }
    Ok(List::of(copy))
}

fn copy_tables(alloc: Global, tables: &[Schema]) -> Result<List<Schema>, AllocError>
    ensures { IfOk result (λ copy. copy ≡ tables.now) }
{
    let mut copy = Vec::with_capacity(alloc, tables.len())?;
    for table in tables {
        copy.push(Schema {
            name: table.name.try_copy()?,
            columns: copy_columns(alloc, table.columns.get())?,
        })?;
    }
    Ok(List::of(copy))
}

// The place of the first table with this name.
fn place_of(tables: &[Schema], name: &[u8]) -> Option<usize>
    ensures value { result ≡ position (λ table. str_eq_ignore_ascii_case table.name name.now) tables.now }
    ensures within { IfSome result (λ place. place < length tables.now) }
{
    tables
        .iter()
        .position(|table| is_same_word(table.name.bytes(), name))
}

impl Catalogue {
    ghost use Rattle.tq_base.specs.Catalogues.{table_number};

    /// The number of the table with this name, in any ASCII case; `None` if there is no such table.
    pub fn table(&self, name: &[u8]) -> Option<u32>
        ensures { result ≡ table_number self.now name.now }
    {
        match place_of(self.tables.get(), name) {
            Some(place) => Some(place as u32),
            None => None,
        }
    }

    /// An equal catalogue. `AllocError` if an allocation failed.
    pub fn try_copy(&self, alloc: Global) -> Result<Catalogue, AllocError>
        ensures { IfOk result (λ copy. copy ≡ self.now) }
    {
        Ok(Catalogue {
            tables: copy_tables(alloc, self.tables.get())?,
        })
    }
}
