// Messages about the rows that the lines of a session name.

ghost use Rattle.std.specs.Prelude.{◌≡◌, ◌≤◌, ◌++◌, IfOk, OnOk, length};
ghost use Rattle.csv.specs.Records.{fields_of};
ghost use Rattle.tq_diagnostics.specs.Details.{line_of};
ghost use Rattle.tq_diagnostics.specs.Fields.{value_detail};
ghost use Rattle.tq_diagnostics.specs.Records.{record_of};
ghost use Rattle.tq_diagnostics.specs.RowDetails as spec;

use crate::fields::{push_number, push_value_detail};
use crate::listing::{columns_at, push_tables};
use crate::records::read_record;
use crate::statements::push_line;
use csv::ByteRecord;
use std::alloc::{AllocError, Global};
use tq_base::{Catalogue, Column};

// Appends the numbers of values and of columns, which differ.
fn push_value_count(text: &mut Vec<u8>, has: usize, wanted: usize) -> Result<(), AllocError>
    ensures { OnOk result (text.new.items ≡ text.old.items ++ spec.value_count_line has wanted) }
{
    text.extend_from_slice(b"  the table has ")?;
    push_number(text, wanted)?;
    text.extend_from_slice(b" columns, but the line has ")?;
    push_number(text, has)?;
    text.extend_from_slice(b" values\n")
}

// Appends the first field that is not a valid value of its column, on a line of its own, if there is one.
fn push_value_line(
    alloc: Global,
    text: &mut Vec<u8>,
    columns: &[Column],
    record: &ByteRecord,
) -> Result<(), AllocError>
    requires { length columns.now ≤ length (fields_of record.now) }
    ensures { OnOk result (text.new.items ≡ text.old.items ++ line_of (value_detail columns.now (fields_of record.now))) }
{
    let mut detail = Vec::new(alloc);
    push_value_detail(&mut detail, columns, record)?;
    push_line(text, &detail)
}

// Appends what is wrong with the fields as values of the columns.
fn push_values(
    alloc: Global,
    text: &mut Vec<u8>,
    columns: &[Column],
    record: &ByteRecord,
) -> Result<(), AllocError>
    ensures { OnOk result (text.new.items ≡ text.old.items ++ spec.values_line columns.now (fields_of record.now)) }
{
    if record.len() != columns.len() {
        return push_value_count(text, record.len(), columns.len());
    }
    push_value_line(alloc, text, columns, record)
}

// Appends what is wrong with the values, which are written as one record, for these columns.
fn push_row_values(
    alloc: Global,
    text: &mut Vec<u8>,
    columns: &[Column],
    values: &[u8],
) -> Result<(), AllocError>
    ensures { OnOk result (text.new.items ≡ text.old.items ++ spec.values_line columns.now (spec.record_fields (record_of values.now 1))) }
{
    let mut record = ByteRecord::new(alloc);
    if !read_record(alloc, values, 1, &mut record)? {
        return push_values(alloc, text, columns, &ByteRecord::new(alloc));
    }
    push_values(alloc, text, columns, &record)
}

/// The message for a row of the table of this name, whose values are written as one record: the tables that exist, or
/// what is wrong with the values; nothing if they are a row of the table. `AllocError` if an allocation failed.
pub fn explain_row(
    alloc: Global,
    catalogue: &Catalogue,
    name: &[u8],
    values: &[u8],
) -> Result<Vec<u8>, AllocError>
    ensures { IfOk result (λ text. text.items ≡ spec.row_detail catalogue.now name.now values.now) }
{
    let mut text = Vec::new(alloc);
    let Some(number) = catalogue.table(name) else {
        let name = name.to_ascii_lowercase(alloc)?;
        push_tables(alloc, &mut text, catalogue, &name)?;
        return Ok(text);
    };
    push_row_values(alloc, &mut text, columns_at(catalogue, number), values)?;
    Ok(text)
}
