// Answers as table files.

ghost use Rattle.std.specs.Prelude.{◌≡◌, ◌++◌, ◌∷◌, IfOk, OnOk};
ghost use Rattle.std.specs.List.{flat_map};
ghost use Rattle.csv.specs.Writing.{field_text, row_text};
ghost use Rattle.tq_report.specs.Texts.{value_in};
ghost use Rattle.tq_report.specs.TypedTexts.{typed_fields, typed_header, typed_name, typed_rows, typed_text_of};
ghost use Rattle.tq_table.specs.Text.{answer_format};

use crate::format::Format;
use crate::texts::{push_csv, push_end, push_instant, push_value};
use itoa::Buffer;
use std::alloc::{AllocError, Global};
use tq_base::{Column, Form, Kind, Period, Row};
use tq_table::ResultRows;

// Appends the field of a column, after a comma.
fn push_typed_name(alloc: Global, text: &mut Vec<u8>, column: &Column) -> Result<(), AllocError>
    ensures { OnOk result (text.new.items ≡ text.old.items ++ 44 ∷ field_text answer_format (typed_name column.now)) }
{
    let mut field = Vec::from_slice(alloc, column.name.bytes())?;
    match column.kind {
        Kind::Int => field.extend_from_slice(b":int")?,
        Kind::Text => field.extend_from_slice(b":text")?,
    }
    text.push(b',')?;
    push_csv(text, &field)
}

fn push_typed_names(alloc: Global, text: &mut Vec<u8>, columns: &[Column]) -> Result<(), AllocError>
    ensures { OnOk result (text.new.items ≡ text.old.items ++ flat_map (λ column. 44 ∷ field_text answer_format (typed_name column)) columns.now) }
{
    'columns: for column in columns {
        push_typed_name(alloc, text, column)?;
    }
    Ok(())
}

fn push_typed_header(
    alloc: Global,
    text: &mut Vec<u8>,
    columns: &[Column],
) -> Result<(), AllocError>
    ensures { OnOk result (text.new.items ≡ text.old.items ++ row_text answer_format (typed_header columns.now)) }
{
    text.extend_from_slice(b"row:int")?;
    push_typed_names(alloc, text, columns)?;
    text.extend_from_slice(b",from,to\n")?;
    Ok(())
}

// Appends each value, after a comma.
fn push_typed_values(alloc: Global, text: &mut Vec<u8>, row: &Row<'_>) -> Result<(), AllocError>
    ensures { OnOk result (text.new.items ≡ text.old.items ++ flat_map (λ value. 44 ∷ value_in Format.Csv 0 value) row.now) }
{
    'places: for place in 0..row.len() {
        text.push(b',')?;
        push_value(alloc, text, row.value(place).as_ref(), Format::Csv, 0)?;
    }
    Ok(())
}

// Appends the line of the row with this number.
fn push_typed_row(
    alloc: Global,
    text: &mut Vec<u8>,
    number: usize,
    row: &Row<'_>,
    period: Period,
    form: Form,
) -> Result<(), AllocError>
    ensures { OnOk result (text.new.items ≡ text.old.items
        ++ row_text answer_format (typed_fields form number (record { values = row.now; period = period }))) }
{
    text.extend_from_slice(Buffer::new().format(number).as_bytes())?;
    push_typed_values(alloc, text, row)?;
    text.push(b',')?;
    push_instant(text, period.start, Format::Csv, form)?;
    text.push(b',')?;
    push_end(text, period.end, Format::Csv, form, false)?;
    text.push(b'\n')?;
    Ok(())
}

fn push_typed_rows(
    alloc: Global,
    text: &mut Vec<u8>,
    rows: &ResultRows<'_>,
    form: Form,
) -> Result<(), AllocError>
    ensures { OnOk result (text.new.items ≡ text.old.items ++ typed_rows form rows.now) }
{
    'rows: for row in 0..rows.len() {
        push_typed_row(alloc, text, row + 1, &rows.row(row), rows.period(row), form)?;
    }
    Ok(())
}

/// The text of a table file with these rows: the header `row:int,NAME:KIND,..,from,to`, then each row with its number, from
/// 1, in front. Requires nothing of the names; the file loads if a table may have them. `AllocError` if an allocation failed.
pub fn typed_text(
    alloc: Global,
    columns: &[Column],
    rows: &ResultRows<'_>,
    form: Form,
) -> Result<Vec<u8>, AllocError>
    ensures { IfOk result (λ text. text.items ≡ typed_text_of form columns.now rows.now) }
{
    let mut text = Vec::new(alloc);
    push_typed_header(alloc, &mut text, columns)?;
    push_typed_rows(alloc, &mut text, rows, form)?;
    Ok(text)
}
