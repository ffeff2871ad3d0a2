// The text of totals.

ghost use Rattle.std.specs.Prelude.{◌≡◌, [], ◌++◌, ◌∷◌, IfOk, List, OnOk, map, ℕ};
ghost use Rattle.std.specs.List.{flat_map};
ghost use Rattle.tq_base.specs.Values.{value_ref};
ghost use Rattle.tq_table.specs.Writing.{HasWritten, IsWriting};
ghost use Rattle.tq_totals.specs.Text.{amount_field, group_fields, header_line, name_at, places_of, sum_fields, total_line, totals_text};

use crate::group_totals::Total;
use csv::Writer;
use std::alloc::{AllocError, Global};
use tq_base::{Name, Value, ValueRef};
use tq_table::{end_line, line_writer, places_at, push_number, text_written, write_field};

// Writes a value as one more field of the line: a number with this many digits after the point, or a text. The list only
// gives room for digits.
fn write_amount(
    writer: &mut Writer<Vec<u8>>,
    value: ValueRef<'_>,
    places: u32,
    room: &mut Vec<u8>,
) -> Result<(), AllocError>
    ensures { (text : List ℕ) (fields : List (List ℕ)) → IsWriting writer.old text fields → OnOk result (IsWriting writer.new text (fields ++ amount_field places (value_ref value.entry) ∷ [])) }
{
    match value {
        ValueRef::Int(number) => {
            room.clear();
            push_number(room, number, places)?;
            write_field(writer, room)
        }
        ValueRef::Text(text) => write_field(writer, text.as_bytes()),
    }
}

// The number of digits after the point of the column at the place among these columns.
fn places_of(columns: &[u32], places: &[u32], place: usize) -> u32
    ensures { result ≡ places_of columns.now places.now place }
{
    match columns.get(place) {
        Some(column) => places_at(places, *column as usize),
        None => places_at(places, 0),
    }
}

// Writes the values of a group in the columns `by`.
fn write_group(
    writer: &mut Writer<Vec<u8>>,
    by: &[u32],
    places: &[u32],
    values: &[Value],
    room: &mut Vec<u8>,
) -> Result<(), AllocError>
    ensures { (text : List ℕ) (fields : List (List ℕ)) → IsWriting writer.old text fields
        → OnOk result (IsWriting writer.new text (fields ++ group_fields by.now places.now values.now)) }
{
    'values: for place in 0..values.len() {
        write_amount(
            writer,
            values[place].as_ref(),
            places_of(by, places, place),
            room,
        )?;
    }
    Ok(())
}

// Writes the sums of a group in the columns `summed`.
fn write_sums(
    writer: &mut Writer<Vec<u8>>,
    summed: &[u32],
    places: &[u32],
    sums: &[i128],
    room: &mut Vec<u8>,
) -> Result<(), AllocError>
    ensures { (text : List ℕ) (fields : List (List ℕ)) → IsWriting writer.old text fields
        → OnOk result (IsWriting writer.new text (fields ++ sum_fields summed.now places.now sums.now)) }
{
    'sums: for place in 0..sums.len() {
        write_amount(
            writer,
            ValueRef::Int(sums[place]),
            places_of(summed, places, place),
            room,
        )?;
    }
    Ok(())
}

// The name of the column; empty if there is no such column.
fn name_at(columns: &[Name], column: u32) -> &[u8]
    ensures { result.now ≡ name_at columns.now column }
{
    match columns.get(column as usize) {
        Some(name) => name.bytes(),
        None => b"",
    }
}

// Writes the names of the columns with these numbers.
fn write_names(
    writer: &mut Writer<Vec<u8>>,
    columns: &[Name],
    numbers: &[u32],
) -> Result<(), AllocError>
    ensures { (text : List ℕ) (fields : List (List ℕ)) → IsWriting writer.old text fields → OnOk result (IsWriting writer.new text (fields ++ map (name_at columns.now) numbers.now)) }
{
    'numbers: for number in numbers {
        write_field(writer, name_at(columns, *number))?;
    }
    Ok(())
}

fn write_header(
    writer: &mut Writer<Vec<u8>>,
    columns: &[Name],
    by: &[u32],
    summed: &[u32],
) -> Result<(), AllocError>
    ensures { (text : List ℕ) → HasWritten writer.old text → OnOk result (HasWritten writer.new (text ++ header_line columns.now by.now summed.now)) }
{
    write_names(writer, columns, by)?;
    write_names(writer, columns, summed)?;
    end_line(writer)
}

fn write_total(
    writer: &mut Writer<Vec<u8>>,
    by: &[u32],
    summed: &[u32],
    places: &[u32],
    total: &Total,
    room: &mut Vec<u8>,
) -> Result<(), AllocError>
    ensures { (text : List ℕ) → HasWritten writer.old text → OnOk result (HasWritten writer.new (text ++ total_line by.now summed.now places.now total.now)) }
{
    write_group(writer, by, places, total.values.get(), room)?;
    write_sums(writer, summed, places, total.sums.get(), room)?;
    end_line(writer)
}

fn write_totals(
    alloc: Global,
    writer: &mut Writer<Vec<u8>>,
    by: &[u32],
    summed: &[u32],
    places: &[u32],
    totals: &[Total],
) -> Result<(), AllocError>
    ensures { (text : List ℕ) → HasWritten writer.old text → OnOk result (HasWritten writer.new (text ++ flat_map (total_line by.now summed.now places.now) totals.now)) }
{
    let mut room = Vec::new(alloc);
    'totals: for total in totals {
        write_total(writer, by, summed, places, total, &mut room)?;
    }
    Ok(())
}

// The totals as CSV in the format of answers: a header line with the names of the columns `by` and `summed`, then a line
// for each total with its values and sums. `places` has the digits after the point of each column. Not inlined, so that the writer's buffers leave the stack.
#[inline(never)]
pub(crate) fn totals_text(
    alloc: Global,
    columns: &[Name],
    by: &[u32],
    summed: &[u32],
    places: &[u32],
    totals: &[Total],
) -> Result<Vec<u8>, AllocError>
    ensures { IfOk result (λ text. text.items ≡ totals_text columns.now by.now summed.now places.now totals.now) }
{
    let mut writer = line_writer(alloc);
    write_header(&mut writer, columns, by, summed)?;
    write_totals(alloc, &mut writer, by, summed, places, totals)?;
    text_written(writer)
}
