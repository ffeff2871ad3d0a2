//! One row of a relation, borrowed.

ghost use Rattle.std.specs.Prelude.{◌≡◌, ◌++◌, OnOk, length, map, pos};
ghost use Rattle.tq_base.specs.Contents.{Int};
ghost use Rattle.tq_base.specs.RowValues.{value_at};
ghost use Rattle.tq_base.specs.Parts.{cells, rows_at};

use crate::parts::{Part, Place, value_in};
use crate::value::Value;
use std::alloc::AllocError;
use std::marker::Model;

/// The values of a row of a relation, borrowed. Contracts see their list.
#[derive(Drop)]
pub struct Row<'a> {
    parts: &'a [Part<'a>],
    columns: &'a [Option<Place>],
    place: u32,
    zero: &'a Value,
}

impl<'a> Model for Row<'a> {
    ghost use Rattle.std.specs.Prelude.{◌≡◌, List, pos};
    ghost use Rattle.tq_base.specs.declared.value.Value.{Value as OneValue};
    ghost use Rattle.tq_base.specs.Contents.{Int};
    ghost use Rattle.tq_base.specs.Parts.{cells, rows_at};

    ghost Value = { List OneValue };

    ghost view = { λ r. cells (rows_at r.parts.now r.place) r.columns.now };

    ghost invariant = { λ r. r.zero.now ≡ Int (pos 0) };
}

impl<'a> Row<'a> {
    // The row at the place.
    pub(crate) fn of(
        parts: &'a [Part<'a>],
        columns: &'a [Option<Place>],
        place: u32,
        zero: &'a Value,
    ) -> Row<'a>
        requires { zero.now ≡ Int (pos 0) }
        ensures { result ≡ cells (rows_at parts.now place) columns.now }
    {
        Row {
            parts,
            columns,
            place,
            zero,
        }
    }

    /// The number of values in the row.
    pub fn len(&self) -> usize
        ensures { result ≡ length self.now }
    {
        self.columns.len()
    }

    /// The value in the column, numbered from 0; a column that the row does not have counts as the number 0.
    pub fn value(&self, column: usize) -> &'a Value
        ensures { result.now ≡ value_at self.now column }
    {
        match self.columns.get(column) {
            Some(column) => value_in(self.parts, column, self.place, self.zero),
            None => self.zero,
        }
    }

    /// Appends copies of the values in the columns to `room`. `AllocError` if an allocation failed.
    pub fn show(&self, columns: &[u32], room: &mut Vec<Value>) -> Result<(), AllocError>
        ensures { OnOk result (room.new.items ≡ room.old.items ++ map (value_at self.now) columns.now) }
    {
        'columns: for column in columns {
            room.push(self.value(*column as usize).try_copy()?)?;
        }
        Ok(())
    }

    /// Appends copies of all values to `room`. `AllocError` if an allocation failed.
    pub fn show_all(&self, room: &mut Vec<Value>) -> Result<(), AllocError>
        ensures { OnOk result (room.new.items ≡ room.old.items ++ self.now) }
    {
        'columns: for column in self.columns {
            let value = value_in(self.parts, column, self.place, self.zero);
            room.push(value.try_copy()?)?;
        }
        Ok(())
    }
}
