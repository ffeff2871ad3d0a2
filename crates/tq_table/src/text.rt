// The text of a table.

ghost use Rattle.std.specs.Prelude.{◌≡◌, ◌≤◌, [], ◌++◌, ◌∷◌, drop, IfOk, length, List, OnOk, map, take, ℕ};
ghost use Rattle.std.specs.List.{flat_map};
ghost use Rattle.std.specs.Io.KnownBytes.{Appends};
ghost use Rattle.csv.specs.Writing.{row_text};
ghost use Rattle.tq_base.specs.declared.fragment.Fragment.{Fragment};
ghost use Rattle.tq_base.specs.Numbers.{instant_text};
ghost use Rattle.tq_base.specs.Values.{value_ref};
ghost use Rattle.tq_table.specs.Text.{answer_format, bound_field, header_text, row_fields, rows_text, text_of, value_field};
ghost use Rattle.tq_table.specs.Sink.{AppendsPrefix, one_more};
ghost use Rattle.tq_table.specs.Writing.{borrowed, HasWritten, IsWriting};

use crate::lines::ResultRows;
use crate::sink::{Sink, WriteFault};
use crate::table::Table;
use crate::writing::{end_line, line_writer, text_written, write_field, write_value};
use csv::Writer;
use std::alloc::{AllocError, Global};
use std::io::Write;
use tq_base::{Bound, Form, Instant, Name, Period, Row, Value, ValueRef, put_instant};

// The values of this many rows are read before their lines are written.
const BLOCK: usize = 64;

fn write_instant(
    writer: &mut Writer<Vec<u8>>,
    instant: Instant,
    form: Form,
) -> Result<(), AllocError>
    ensures { (text : List ℕ) (fields : List (List ℕ)) → IsWriting writer.old text fields → OnOk result (IsWriting writer.new text (fields ++ instant_text form instant ∷ [])) }
{
    let mut text = [0; 12];
    let len = put_instant(instant, form, &mut text);
    write_field(writer, &text[..len])
}

fn write_bound(writer: &mut Writer<Vec<u8>>, bound: Bound, form: Form) -> Result<(), AllocError>
    ensures { (text : List ℕ) (fields : List (List ℕ)) → IsWriting writer.old text fields → OnOk result (IsWriting writer.new text (fields ++ bound_field form bound ∷ [])) }
{
    match Instant::new(bound.number()) {
        Some(instant) => write_instant(writer, instant, form),
        None => write_field(writer, b"forever"),
    }
}

// Writes values as further fields of the line.
fn write_values(writer: &mut Writer<Vec<u8>>, values: &[ValueRef<'_>]) -> Result<(), AllocError>
    ensures { (text : List ℕ) (fields : List (List ℕ)) → IsWriting writer.old text fields → OnOk result (IsWriting writer.new text (fields ++ map value_field (map value_ref values.now))) }
{
    'values: for value in values {
        write_value(writer, *value)?;
    }
    Ok(())
}

// Writes the line of a row with these values.
fn write_row(
    writer: &mut Writer<Vec<u8>>,
    values: &[ValueRef<'_>],
    period: Period,
    form: Form,
) -> Result<(), AllocError>
    ensures { (text : List ℕ) → HasWritten writer.old text
        → OnOk result (HasWritten writer.new (text ++ row_text answer_format (row_fields form (record { values = map value_ref values.now; period = period })))) }
{
    write_values(writer, values)?;
    write_instant(writer, period.start, form)?;
    write_bound(writer, period.end, form)?;
    end_line(writer)
}

// Appends references to the values of a row; some of them if an allocation failed.
fn borrow_row<'r>(row: &Row<'r>, borrows: &mut Vec<&'r Value>) -> Result<(), AllocError>
    ensures { OnOk result (borrowed borrows.new.items ≡ borrowed borrows.old.items ++ row.now) }
{
    'values: for place in 0..row.len() {
        borrows.push(row.value(place))?;
    }
    Ok(())
}

// Replaces the list by references to the values of the rows from `start` to `end`, row after row. Reads no value.
fn borrow_rows<'r>(
    rows: &'r ResultRows<'_>,
    start: usize,
    end: usize,
    borrows: &mut Vec<&'r Value>,
) -> Result<(), AllocError>
    requires ordered { start ≤ end }
    requires within { end ≤ length rows.now }
    ensures { OnOk result (borrowed borrows.new.items ≡ flat_map (λ (row : Fragment). row.values) (drop start (take end rows.now))) }
{
    borrows.clear();
    'rows: for row in start..end {
        borrow_row(&rows.row(row), borrows)?;
    }
    Ok(())
}

// Replaces the list `seen` by the values of the references. Values lie anywhere in memory; in a loop that does nothing
// else the processor overlaps many cache misses.
fn read_refs<'r>(borrows: &[&'r Value], seen: &mut Vec<ValueRef<'r>>) -> Result<(), AllocError>
    ensures { OnOk result (map value_ref seen.new.items ≡ borrowed borrows.now) }
{
    seen.clear();
    seen.reserve(borrows.len())?;
    'values: for value in borrows {
        seen.push_reserved(value.as_ref());
    }
    Ok(())
}

// Writes a line for each row from `start` to `end`; `borrows` has the values of these rows.
fn write_borrowed(
    writer: &mut Writer<Vec<u8>>,
    rows: &ResultRows<'_>,
    start: usize,
    end: usize,
    borrows: &[ValueRef<'_>],
    form: Form,
) -> Result<(), AllocError>
    requires ordered { start ≤ end }
    requires within { end ≤ length rows.now }
    requires borrows { map value_ref borrows.now ≡ flat_map (λ (row : Fragment). row.values) (drop start (take end rows.now)) }
    ensures { (text : List ℕ) → HasWritten writer.old (text ++ rows_text form (take start rows.now)) → OnOk result (HasWritten writer.new (text ++ rows_text form (take end rows.now))) }
{
    let width = rows.width();
    let mut from = 0;
    'rows: for row in start..end {
        let to = from + width;
        write_row(writer, &borrows[from..to], rows.period(row), form)?;
        from = to;
    }
    Ok(())
}

// Writes a line for each row.
fn write_rows(
    alloc: Global,
    writer: &mut Writer<Vec<u8>>,
    rows: &ResultRows<'_>,
    form: Form,
) -> Result<(), AllocError>
    ensures { (text : List ℕ) → HasWritten writer.old text → OnOk result (HasWritten writer.new (text ++ rows_text form rows.now)) }
{
    let mut borrows = Vec::new(alloc);
    let mut seen = Vec::new(alloc);
    let mut start = 0;
    'blocks: while start < rows.len() {
        let end = start.saturating_add(BLOCK).min(rows.len());
        borrow_rows(rows, start, end, &mut borrows)?;
        read_refs(&borrows, &mut seen)?;
        write_borrowed(writer, rows, start, end, &seen, form)?;
        start = end;
    }
    Ok(())
}

fn write_header(writer: &mut Writer<Vec<u8>>, columns: &[Name]) -> Result<(), AllocError>
    ensures { (text : List ℕ) → HasWritten writer.old text → OnOk result (HasWritten writer.new (text ++ header_text columns.now)) }
{
    'columns: for column in columns {
        write_field(writer, column.bytes())?;
    }
    write_field(writer, b"from")?;
    write_field(writer, b"to")?;
    end_line(writer)
}

/// The header line: the column names, `from` and `to`. `AllocError` if an allocation failed.
#[inline(never)]
pub fn header_text(alloc: Global, columns: &[Name]) -> Result<Vec<u8>, AllocError>
    ensures { IfOk result (λ text. text.items ≡ header_text columns.now) }
{
    let mut writer = line_writer(alloc);
    write_header(&mut writer, columns)?;
    text_written(writer)
}

/// One line for each row, without a header; `form` says how periods are written. `AllocError` if an allocation failed.
#[inline(never)]
pub fn rows_text(alloc: Global, rows: &ResultRows<'_>, form: Form) -> Result<Vec<u8>, AllocError>
    ensures { IfOk result (λ text. text.items ≡ rows_text form rows.now) }
{
    let mut writer = line_writer(alloc);
    write_rows(alloc, &mut writer, rows, form)?;
    text_written(writer)
}

/// The text of a table as CSV after RFC 4180, with lines ended by LF. The header line has the column names, `from` and
/// `to`. Each row's line has its values, start and end; `form` says how these are written. `AllocError` if an
/// allocation failed. Not inlined, so that the writer's buffers leave the stack.
#[inline(never)]
pub fn table_text(alloc: Global, table: &Table<'_>, form: Form) -> Result<Vec<u8>, AllocError>
    ensures { IfOk result (λ text. text.items ≡ text_of form table.now) }
{
    let mut writer = line_writer(alloc);
    write_header(&mut writer, table.columns.get())?;
    write_rows(alloc, &mut writer, &table.rows, form)?;
    text_written(writer)
}

/// Writes the text of a table, which is first made as a whole. `Write` if the writer failed: then a prefix was written.
/// `OutOfMemory` if an allocation failed: then nothing was written.
pub fn write_table<W: Write>(
    alloc: Global,
    table: &Table<'_>,
    sink: &mut Sink<W>,
    form: Form,
) -> Result<(), WriteFault>
    ensures whole { OnOk result (Appends (W.contents sink.old.writer) (W.contents sink.new.writer) (text_of form table.now)) }
    ensures unfailed { OnOk result (sink.new.failed ≡ sink.old.failed) }
    ensures write { result ≡ Err WriteFault.Write
        → AppendsPrefix (W.contents sink.old.writer) (W.contents sink.new.writer) (text_of form table.now) }
    ensures failed { result ≡ Err WriteFault.Write → sink.new.failed ≡ one_more sink.old.failed }
    ensures out_of_memory { result ≡ Err WriteFault.OutOfMemory → sink.new ≡ sink.old }
{
    match table_text(alloc, table, form) {
        Ok(text) => sink.send(&text),
        Err(_) => Err(WriteFault::OutOfMemory),
    }
}
