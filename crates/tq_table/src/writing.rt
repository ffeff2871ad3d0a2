// Lines of CSV in the format of answers, written one field after another into memory.

ghost use Rattle.std.specs.Prelude.{◌≡◌, [], ◌++◌, ◌∷◌, IfOk, List, OnOk, ℕ};
ghost use Rattle.csv.specs.Records.{fields_of};
ghost use Rattle.csv.specs.Writing.{row_text};
ghost use Rattle.tq_base.specs.Values.{value_ref};
ghost use Rattle.tq_table.specs.Text.{answer_format, value_field};
ghost use Rattle.tq_table.specs.Writing.{HasWritten, IsWriting};

use csv::{ByteRecord, Writer, WriterBuilder};
use itoa::Buffer;
use std::alloc::{AllocError, Global};
use tq_base::ValueRef;

/// A writer of lines that has written none.
pub fn line_writer(alloc: Global) -> Writer<Vec<u8>>
    ensures { HasWritten result [] }
{
    WriterBuilder::new()
        .flexible(true)
        .from_writer(Vec::new(alloc))
}

/// Writes one more field of the line. `AllocError` if an allocation failed.
pub fn write_field(writer: &mut Writer<Vec<u8>>, field: &[u8]) -> Result<(), AllocError>
    ensures { (text : List ℕ) (fields : List (List ℕ)) → IsWriting writer.old text fields → OnOk result (IsWriting writer.new text (fields ++ field.now ∷ [])) }
{
    match writer.write_field(field) {
        Ok(()) => Ok(()),
        Err(_) => Err(AllocError),
    }
}

/// Writes a value as one more field of the line. `AllocError` if an allocation failed.
pub fn write_value(writer: &mut Writer<Vec<u8>>, value: ValueRef<'_>) -> Result<(), AllocError>
    ensures { (text : List ℕ) (fields : List (List ℕ)) → IsWriting writer.old text fields → OnOk result (IsWriting writer.new text (fields ++ value_field (value_ref value.entry) ∷ [])) }
{
    match value {
        ValueRef::Int(number) => write_field(writer, Buffer::new().format(number).as_bytes()),
        ValueRef::Text(text) => write_field(writer, text.as_bytes()),
    }
}

/// Ends the line. `AllocError` if an allocation failed.
pub fn end_line(writer: &mut Writer<Vec<u8>>) -> Result<(), AllocError>
    ensures { (text : List ℕ) (fields : List (List ℕ)) → IsWriting writer.old text fields → OnOk result (HasWritten writer.new (text ++ row_text answer_format fields)) }
{
    match writer.end_record() {
        Ok(()) => Ok(()),
        Err(_) => Err(AllocError),
    }
}

/// Writes a whole line. `AllocError` if an allocation failed.
pub fn write_line(writer: &mut Writer<Vec<u8>>, fields: &ByteRecord) -> Result<(), AllocError>
    ensures { (text : List ℕ) → HasWritten writer.old text → OnOk result (HasWritten writer.new (text ++ row_text answer_format (fields_of fields.now))) }
{
    match writer.write_byte_record(fields) {
        Ok(()) => Ok(()),
        Err(_) => Err(AllocError),
    }
}

/// The text that was written. `AllocError` if an allocation failed.
pub fn text_written(writer: Writer<Vec<u8>>) -> Result<Vec<u8>, AllocError>
    ensures { (text : List ℕ) → HasWritten writer text → IfOk result (λ written. written.items ≡ text) }
{
    match writer.into_inner() {
        Ok(text) => Ok(text),
        Err(_) => Err(AllocError),
    }
}
