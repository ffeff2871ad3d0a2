// A table file is divided: each record is written to the file of its part.

ghost use Rattle.std.specs.Prelude.{◌≡◌, ◌≢◌, ◌≤◌, ◌<◌, ◌++◌, [], ℕ, Err, IfErr, IfOk, IsTrue, List, OnOk, Ok, Some, length, replicate, slice_index_or, slice_set};
ghost use Rattle.std.specs.Io.KnownBytes.{Appends};
ghost use Rattle.csv.specs.Records.{fields_of};
ghost use Rattle.csv.specs.Writing.{row_text};
ghost use Rattle.tq_event.specs.Loading.{csv_records, entry_of};
ghost use Rattle.tq_event.specs.Projection.{is_wanted};
ghost use Rattle.tq_table.specs.Text.{answer_format};
ghost use Rattle.tq_import.specs.Reading.{HasLeft};
ghost use Rattle.tq_split.specs.TableParts.{AreAppended, AreDivided, HasEntry, HasFlushed, IsBatch, IsCut, IsDivided, IsDivisionFault, IsHeaderFault, IsRecordsFault, header_text, known_bytes, record_part, texts_of};

use crate::division::{Batch, Cut, Divided, Division, DivisionFault};
use crate::part_numbers::part_number;
use csv::{ByteRecord, Reader, Writer};
use std::alloc::{AllocError, Global};
use std::io::{Read, Write};
use tq_base::Value;
use tq_event::LoadFaultKind;
use tq_event::steps::{read_entry, read_header};
use tq_import::{InputFault, next_record, record_reader};
use tq_table::{Sink, line_writer, text_written, write_line};

// The most records of a batch, whose lines are written together.
const BATCH: u32 = 1024;

fn header_fault(kind: LoadFaultKind) -> DivisionFault
    ensures header { kind ≢ LoadFaultKind.OutOfMemory → result ≡ DivisionFault.Header kind }
    ensures memory { kind ≡ LoadFaultKind.OutOfMemory → result ≡ DivisionFault.OutOfMemory }
{
    if matches!(kind, LoadFaultKind::OutOfMemory) {
        DivisionFault::OutOfMemory
    } else {
        DivisionFault::Header(kind)
    }
}

// The fault of the record with this number.
fn record_fault(number: u64, kind: LoadFaultKind) -> DivisionFault
    ensures record { kind ≢ LoadFaultKind.OutOfMemory → result ≡ DivisionFault.Record number kind }
    ensures memory { kind ≡ LoadFaultKind.OutOfMemory → result ≡ DivisionFault.OutOfMemory }
{
    if matches!(kind, LoadFaultKind::OutOfMemory) {
        DivisionFault::OutOfMemory
    } else {
        DivisionFault::Record { number, kind }
    }
}

// A list of `columns` entries, of which only that of the column is true.
fn only_column(alloc: Global, columns: usize, column: usize) -> Result<Vec<bool>, AllocError>
    requires { column < columns }
    ensures { IfOk result (λ wanted. IsTrue (is_wanted wanted.items column)) }
{
    let mut wanted = vec![in alloc; false; columns]?;
    wanted[column] = true;
    Ok(wanted)
}

// How the records of a table with this header are read. Fails if the header is not valid or lacks the column.
fn cut_of(alloc: Global, division: Division, header: &ByteRecord) -> Result<Cut, DivisionFault>
    ensures ok { IfOk result (IsCut division (fields_of header.now)) }
    ensures fault { IfErr result (IsHeaderFault division (fields_of header.now)) }
{
    let columns = match read_header(alloc, header) {
        Ok(columns) => columns,
        Err(kind) => return Err(header_fault(kind)),
    };
    if division.column as usize >= columns.len() {
        return Err(DivisionFault::NoColumn);
    }
    let wanted = only_column(alloc, columns.len(), division.column as usize)?;
    Ok(Cut {
        column: division.column,
        form: division.form,
        columns,
        wanted,
    })
}

// Writes the line of the record, so that the list under the writer has it.
fn write_through(writer: &mut Writer<Vec<u8>>, record: &ByteRecord) -> Result<(), AllocError>
    ensures { (text : List ℕ) → HasFlushed writer.old text → OnOk result (HasFlushed writer.new (text ++ row_text answer_format (fields_of record.now))) }
{
    write_line(writer, record)?;
    match writer.flush() {
        Ok(()) => Ok(()),
        Err(_) => Err(AllocError),
    }
}

// Appends the line of the record to the text. The writer has written the lines before it.
fn push_line(
    writer: &mut Writer<Vec<u8>>,
    record: &ByteRecord,
    text: &mut Vec<u8>,
) -> Result<(), AllocError>
    requires { (before : List ℕ) × HasFlushed writer.old before }
    ensures flushed { OnOk result ((after : List ℕ) × HasFlushed writer.new after) }
    ensures line { OnOk result (text.new.items ≡ text.old.items ++ row_text answer_format (fields_of record.now)) }
{
    let start = writer.get_ref().len();
    write_through(writer, record)?;
    let lines = writer.get_ref().as_slice();
    text.extend_from_slice(&lines[start..])?;
    Ok(())
}

// Appends the line of the record to the text of its part. Every field is checked.
fn add_record(
    alloc: Global,
    cut: &Cut,
    record: &ByteRecord,
    values: &mut Vec<Value>,
    writer: &mut Writer<Vec<u8>>,
    texts: &mut Vec<Vec<u8>>,
) -> Result<(), LoadFaultKind>
    requires some { 1 ≤ length texts.old.items }
    requires few { length texts.old.items ≤ 65536 }
    requires within { cut.now.column < length cut.now.columns.items }
    requires wanted { IsTrue (is_wanted cut.now.wanted.items cut.now.column) }
    requires flushed { (before : List ℕ) × HasFlushed writer.old before }
    ensures entry { OnOk result (HasEntry cut.now.form cut.now.columns.items (fields_of record.now)) }
    ensures flushed { OnOk result ((after : List ℕ) × HasFlushed writer.new after) }
    ensures line { let part = record_part (length texts.old.items) cut.now.form cut.now.columns.items cut.now.column (fields_of record.now) in
        OnOk result (texts_of texts.new.items ≡ slice_set (texts_of texts.old.items) part (slice_index_or (texts_of texts.old.items) part [] ++ row_text answer_format (fields_of record.now))) }
    ensures fault { IfErr result (λ kind. kind ≢ LoadFaultKind.OutOfMemory → entry_of cut.now.form 0 cut.now.columns.items (fields_of record.now) ≡ Err kind) }
{
    read_entry(alloc, &cut.columns, &cut.wanted, record, values, cut.form)?;
    let part = part_number(&values[cut.column as usize], texts.len() as u32);
    push_line(writer, record, &mut texts[part as usize])?;
    Ok(())
}

// This many empty texts.
fn empty_texts(alloc: Global, parts: usize) -> Result<Vec<Vec<u8>>, AllocError>
    ensures { IfOk result (λ texts. texts_of texts.items ≡ replicate parts []) }
{
    let mut texts = Vec::with_capacity(alloc, parts)?;
    'parts: for _ in 0..parts {
        texts.push(Vec::new(alloc))?;
    }
    Ok(texts)
}

// Reads at most `BATCH` records, the first of which has this number, and makes the lines of each part. Not inlined, so
// that the writer's buffers leave the stack.
#[inline(never)]
fn read_batch<R: Read>(
    alloc: Global,
    cut: &Cut,
    parts: usize,
    number: u64,
    reader: &mut Reader<R>,
) -> Result<Batch, DivisionFault>
    requires some { 1 ≤ parts }
    requires few { parts ≤ 65536 }
    requires within { cut.now.column < length cut.now.columns.items }
    requires wanted { IsTrue (is_wanted cut.now.wanted.items cut.now.column) }
    ensures ok { (left : List (List (List ℕ))) → HasLeft R.remaining 44 reader.old left
        → IfOk result (IsBatch cut.now parts number left R.remaining reader.new) }
    ensures many { IfOk result (λ batch. length batch.texts.items ≡ parts) }
    ensures next { IfOk result (λ batch. number ≤ batch.next) }
    ensures fault { (left : List (List (List ℕ))) → HasLeft R.remaining 44 reader.old left
        → IfErr result (IsRecordsFault cut.now.form cut.now.columns.items number left) }
{
    let mut texts = empty_texts(alloc, parts)?;
    let mut writer = line_writer(alloc);
    let mut record = ByteRecord::new(alloc);
    let mut values = Vec::new(alloc);
    let mut next = number;
    'records: for _ in 0..BATCH {
        if !next_record(reader, &mut record)? {
            return Ok(Batch {
                texts,
                next,
                more: false,
            });
        }
        if let Err(kind) = add_record(alloc, cut, &record, &mut values, &mut writer, &mut texts) {
            return Err(record_fault(next, kind));
        }
        let Some(after) = next.checked_add(1) else {
            return Err(DivisionFault::Input(InputFault::Read));
        };
        next = after;
    }
    Ok(Batch {
        texts,
        next,
        more: true,
    })
}

fn put<W: Write>(sink: &mut Sink<W>, bytes: &[u8]) -> Result<(), DivisionFault>
    ensures whole { OnOk result (Appends (W.contents sink.old.writer) (W.contents sink.new.writer) bytes.now) }
    ensures fault { IfErr result (λ fault. fault ≡ DivisionFault.Write) }
{
    match sink.put(bytes) {
        Ok(()) => Ok(()),
        Err(_) => Err(DivisionFault::Write),
    }
}

// Writes each of the texts to its sink.
fn put_texts<W: Write>(sinks: &mut [Sink<W>], texts: &[Vec<u8>]) -> Result<(), DivisionFault>
    requires { length texts.now ≡ length sinks.old }
    ensures whole { OnOk result (AreAppended (known_bytes W.contents sinks.old) (known_bytes W.contents sinks.new) (λ part. slice_index_or (texts_of texts.now) part [])) }
    ensures fault { IfErr result (λ fault. fault ≡ DivisionFault.Write) }
{
    'parts: for (part, text) in texts.iter().enumerate() {
        put(&mut sinks[part], text)?;
    }
    Ok(())
}

// Writes the bytes to each of the sinks.
fn put_all<W: Write>(sinks: &mut [Sink<W>], bytes: &[u8]) -> Result<(), DivisionFault>
    ensures whole { OnOk result (AreAppended (known_bytes W.contents sinks.old) (known_bytes W.contents sinks.new) (λ part. bytes.now)) }
    ensures fault { IfErr result (λ fault. fault ≡ DivisionFault.Write) }
{
    'parts: for part in 0..sinks.len() {
        put(&mut sinks[part], bytes)?;
    }
    Ok(())
}

// The header's line, if it is written.
fn header_text(alloc: Global, begins: bool, header: &ByteRecord) -> Result<Vec<u8>, AllocError>
    ensures { IfOk result (λ text. text.items ≡ header_text begins (fields_of header.now)) }
{
    if !begins {
        return Ok(Vec::new(alloc));
    }
    let mut writer = line_writer(alloc);
    write_line(&mut writer, header)?;
    text_written(writer)
}

// Writes the records that the reader has still to read, which come after the header, record 1, each to its part. Returns
// their number.
fn divide_records<R: Read, W: Write>(
    alloc: Global,
    cut: &Cut,
    reader: &mut Reader<R>,
    sinks: &mut [Sink<W>],
) -> Result<u64, DivisionFault>
    requires some { 1 ≤ length sinks.old }
    requires few { length sinks.old ≤ 65536 }
    requires within { cut.now.column < length cut.now.columns.items }
    requires wanted { IsTrue (is_wanted cut.now.wanted.items cut.now.column) }
    ensures ok { (left : List (List (List ℕ))) → HasLeft R.remaining 44 reader.old left
        → IfOk result (AreDivided cut.now left (known_bytes W.contents sinks.old) (known_bytes W.contents sinks.new)) }
    ensures fault { (left : List (List (List ℕ))) → HasLeft R.remaining 44 reader.old left
        → IfErr result (IsRecordsFault cut.now.form cut.now.columns.items 2 left) }
{
    let mut number = 2;
    'batches: for _ in 0..u64::MAX {
        let batch = match read_batch(alloc, cut, sinks.len(), number, reader) {
            Ok(batch) => batch,
            Err(fault) => return Err(fault),
        };
        let Batch { texts, next, more } = batch;
        put_texts(sinks, &texts)?;
        number = next;
        if !more {
            return Ok(number - 2);
        }
    }
    Err(DivisionFault::Input(InputFault::Read))
}

/// Divides a table file into parts, one for each of the sinks: writes the fields of each record, unchanged, to the sink with
/// the number of its part, which is `part_number` of its value in the column. Lines are written as records are read, so
/// memory does not grow with their number. Sinks are not flushed. Returns the first fault in the order of records and
/// checks; lines of records before it may then have been written.
pub fn divide<R: Read + Drop, W: Write>(
    alloc: Global,
    division: Division,
    input: R,
    sinks: &mut [Sink<W>],
) -> Result<Divided, DivisionFault>
    requires some { 1 ≤ length sinks.old }
    requires few { length sinks.old ≤ 65536 }
    ensures ok { (text : List ℕ) → R.remaining input ≡ Some text
        → IfOk result (IsDivided division text (known_bytes W.contents sinks.old) (known_bytes W.contents sinks.new)) }
    ensures fault { (text : List ℕ) → R.remaining input ≡ Some text
        → IfErr result (IsDivisionFault division (csv_records text)) }
{
    let mut reader = record_reader(alloc, input, b',');
    let mut header = ByteRecord::new(alloc);
    if !next_record(&mut reader, &mut header)? {
        return Err(DivisionFault::NoHeader);
    }
    let cut = match cut_of(alloc, division, &header) {
        Ok(cut) => cut,
        Err(fault) => return Err(fault),
    };
    let begin = header_text(alloc, division.begins, &header)?;
    put_all(sinks, &begin)?;
    let rows = match divide_records(alloc, &cut, &mut reader, sinks) {
        Ok(rows) => rows,
        Err(fault) => return Err(fault),
    };
    let Cut { columns, .. } = cut;
    Ok(Divided { rows, columns })
}
