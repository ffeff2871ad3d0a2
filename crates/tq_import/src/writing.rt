// The lines of a table file.

ghost use Rattle.std.specs.Prelude.{◌≡◌, ◌++◌, ◌∷◌, [], ℕ, IfOk, List, OnOk};
ghost use Rattle.csv.specs.Records.{fields_of};
ghost use Rattle.csv.specs.Writing.{row_text};
ghost use Rattle.tq_table.specs.Text.{answer_format};
ghost use Rattle.tq_import.specs.Imports.{column_field, kind_word, number_header, table_header};
ghost use Rattle.tq_import.specs.Records.{HasFields};

use crate::converting::push_field;
use crate::plan::{Conversion, Plan, PlannedColumn};
use csv::ByteRecord;
use std::alloc::{AllocError, Global};
use tq_table::{line_writer, text_written, write_line};

fn kind_word(conversion: Conversion) -> &'static [u8]
    ensures { result.now ≡ kind_word conversion }
{
    match conversion {
        Conversion::Number(_) => b":int",
        Conversion::Text => b":text",
    }
}

// Appends the field of a column of the header, with its text in `text`.
fn push_column(
    column: &PlannedColumn,
    fields: &mut ByteRecord,
    text: &mut Vec<u8>,
) -> Result<(), AllocError>
    ensures { (before : List (List ℕ)) → HasFields fields.old before → OnOk result (HasFields fields.new (before ++ column_field column.now ∷ [])) }
{
    text.clear();
    text.extend_from_slice(column.name.bytes())?;
    text.extend_from_slice(kind_word(column.conversion))?;
    push_field(fields, text)?;
    Ok(())
}

// The column of row numbers, if rows are numbered.
fn begin_header(alloc: Global, numbered: bool) -> Result<ByteRecord, AllocError>
    ensures { IfOk result (λ fields. HasFields fields (number_header numbered)) }
{
    let mut fields = ByteRecord::new(alloc);
    if numbered {
        push_field(&mut fields, b"row:int")?;
        return Ok(fields);
    }
    Ok(fields)
}

// The header of the table file.
fn header_fields(alloc: Global, plan: &Plan<'_>) -> Result<ByteRecord, AllocError>
    ensures { IfOk result (λ fields. fields_of fields ≡ table_header plan.now) }
{
    let mut fields = begin_header(alloc, plan.numbered)?;
    let mut text = Vec::new(alloc);
    'columns: for column in plan.columns.get() {
        push_column(column, &mut fields, &mut text)?;
    }
    push_field(&mut fields, b"from")?;
    push_field(&mut fields, b"to")?;
    Ok(fields)
}

/// The header line of the table file.
pub fn header_text(alloc: Global, plan: &Plan<'_>) -> Result<Vec<u8>, AllocError>
    ensures { IfOk result (λ text. text.items ≡ row_text answer_format (table_header plan.now)) }
{
    let fields = header_fields(alloc, plan)?;
    let mut writer = line_writer(alloc);
    write_line(&mut writer, &fields)?;
    text_written(writer)
}
