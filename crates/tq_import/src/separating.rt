// From the records of a file to a table file of the valid ones, a part at a time. Rows or messages about the invalid
// ones go to a writer of their own.

ghost use Rattle.std.specs.Prelude.{◌≡◌, ◌++◌, [], ◌≤◌, ◌+◌, ℕ, IfErr, IfOk, List, OnOk, length};
ghost use Rattle.std.specs.Borrow.{Bor};
ghost use Rattle.csv.specs.Records.{fields_of};
ghost use Rattle.csv.specs.Writing.{row_text};
ghost use Rattle.tq_table.specs.Writing.{HasWritten};
ghost use Rattle.tq_import.specs.Messages.{message_line};
ghost use Rattle.tq_import.specs.Reading.{HasLeft};
ghost use Rattle.tq_import.specs.Records.{import_record};
ghost use Rattle.tq_import.specs.Rejects.{AreRejectTexts, HasRejected, HasRows, IsNoRecordFault, IsRejectText, IsSeparated, IsSeparatedPart, fault_of, line_of, rejects_header, separated_format};

use crate::converting::import_record;
use crate::fault::{ImportFault, RecordFault, RecordFaultKind};
use crate::importing::put;
use crate::lines::{LineEnds, first_line};
use crate::messages::{Invalid, push_message_line};
use crate::part::{RejectText, Rejects, Separated, SeparatedPart};
use crate::plan::Plan;
use crate::reading::next_record;
use crate::scratch::Scratch;
use crate::writing::header_text;
use csv::{ByteRecord, Reader, Writer, WriterBuilder};
use std::alloc::{AllocError, Global};
use std::io::{Read, Write};
use tq_table::{Sink, line_writer, text_written, write_line};

// The most records of a part, whose lines are written together.
const PART: u32 = 1024;

/// How invalid records are separated from others: the plan of the file, what is written about them, and the header.
#[derive(Clone, Copy)]
pub(crate) struct Separation<'a> {
    pub plan: &'a Plan<'a>,
    pub rejects: Rejects<'a>,
    pub header: &'a ByteRecord,
}

// A writer of rows with this byte between fields that has written none.
fn row_writer(alloc: Global, delimiter: u8) -> Writer<Vec<u8>>
    ensures { HasRows delimiter result [] }
{
    WriterBuilder::new()
        .flexible(true)
        .delimiter(delimiter)
        .from_writer(Vec::new(alloc))
}

// Writes a row. Over a vector only an allocation can fail.
fn write_row(writer: &mut Writer<Vec<u8>>, record: &ByteRecord) -> Result<(), AllocError>
    ensures { (delimiter : ℕ) (text : List ℕ) → HasRows delimiter writer.old text → OnOk result (HasRows delimiter writer.new (text ++ row_text (separated_format delimiter) (fields_of record.now))) }
{
    match writer.write_byte_record(record) {
        Ok(()) => Ok(()),
        Err(_) => Err(AllocError),
    }
}

// The rows that were written.
fn rows_written(writer: Writer<Vec<u8>>) -> Result<Vec<u8>, AllocError>
    ensures { (delimiter : ℕ) (text : List ℕ) → HasRows delimiter writer text → IfOk result (λ rows. rows.items ≡ text) }
{
    match writer.into_inner() {
        Ok(rows) => Ok(rows),
        Err(_) => Err(AllocError),
    }
}

// The header as a row with this byte between fields.
fn header_row(alloc: Global, delimiter: u8, header: &ByteRecord) -> Result<Vec<u8>, AllocError>
    ensures { IfOk result (λ row. row.items ≡ row_text (separated_format delimiter) (fields_of header.now)) }
{
    let mut writer = row_writer(alloc, delimiter);
    write_row(&mut writer, header)?;
    rows_written(writer)
}

// What is written before the invalid records.
fn rejects_header(
    alloc: Global,
    rejects: Rejects<'_>,
    header: &ByteRecord,
) -> Result<Vec<u8>, AllocError>
    ensures { IfOk result (λ text. text.items ≡ rejects_header rejects.entry (fields_of header.now)) }
{
    match rejects {
        Rejects::Records(delimiter) => header_row(alloc, delimiter, header),
        Rejects::Messages(_) => Ok(Vec::new(alloc)),
    }
}

// The text about invalid records while there are none: it is empty.
fn no_rejects(alloc: Global, rejects: Rejects<'_>) -> RejectText
    ensures { HasRejected rejects.entry result [] }
{
    match rejects {
        Rejects::Records(delimiter) => RejectText::Rows(row_writer(alloc, delimiter)),
        Rejects::Messages(_) => RejectText::Messages(Vec::new(alloc)),
    }
}

// What was written about invalid records.
fn rejected_text(rejected: RejectText) -> Result<Vec<u8>, AllocError>
    ensures { (rejects : Rejects) (text : List ℕ) → HasRejected rejects rejected text → IfOk result (λ written. written.items ≡ text) }
{
    match rejected {
        RejectText::Rows(writer) => rows_written(writer),
        RejectText::Messages(text) => Ok(text),
    }
}

// Appends a message about an invalid record, or nothing if rows are written instead.
fn push_message(
    alloc: Global,
    separation: &Separation<'_>,
    invalid: &Invalid<'_>,
    text: &mut Vec<u8>,
) -> Result<(), AllocError>
    ensures { (path : Bor (List ℕ)) → separation.now.rejects ≡ Rejects.Messages path → OnOk result (text.new.items ≡ text.old.items ++ message_line path.now separation.now.plan.now (fields_of separation.now.header.now) invalid.now.line invalid.now.fault (fields_of invalid.now.fields.now)) }
{
    match separation.rejects {
        Rejects::Messages(path) => {
            push_message_line(
                alloc,
                path,
                separation.plan,
                separation.header,
                invalid,
                text,
            )?;
            Ok(())
        }
        Rejects::Records(_) => Ok(()),
    }
}

// Appends the row of an invalid record, or a message about it.
fn push_reject(
    alloc: Global,
    separation: &Separation<'_>,
    invalid: &Invalid<'_>,
    rejected: &mut RejectText,
) -> Result<(), AllocError>
    ensures { (number : ℕ) (before : List ℕ) → HasRejected separation.now.rejects rejected.old before
        → OnOk result ((text : List ℕ) × IsRejectText separation.now.rejects separation.now.plan.now (fields_of separation.now.header.now) (record { number = number; fault = invalid.now.fault; fields = fields_of invalid.now.fields.now }) text
        × HasRejected separation.now.rejects rejected.new (before ++ text)) }
{
    match rejected {
        RejectText::Rows(writer) => {
            write_row(writer, invalid.fields)?;
            Ok(())
        }
        RejectText::Messages(text) => {
            push_message(alloc, separation, invalid, text)?;
            Ok(())
        }
    }
}

// The lines of valid records, what is written about invalid ones with their number, and memory that is used again.
#[derive(Drop)]
struct Batch {
    writer: Writer<Vec<u8>>,
    rejected: RejectText,
    invalid: u64,
    fields: ByteRecord,
    scratch: Scratch,
}

impl Batch {
    // A batch without records.
    fn new(alloc: Global, rejects: Rejects<'_>) -> Batch
        ensures writer { HasWritten result.writer [] }
        ensures rejected { HasRejected rejects.entry result.rejected [] }
        ensures invalid { result.invalid ≡ 0 }
    {
        Batch {
            writer: line_writer(alloc),
            rejected: no_rejects(alloc, rejects),
            invalid: 0,
            fields: ByteRecord::new(alloc),
            scratch: Scratch::new(alloc),
        }
    }
}

// Adds an invalid record to the batch.
fn add_reject<R: Read + LineEnds>(
    alloc: Global,
    separation: &Separation<'_>,
    reader: &Reader<R>,
    fault: RecordFault,
    record: &ByteRecord,
    batch: &mut Batch,
) -> Result<(), ImportFault>
    ensures fault { IfErr result IsNoRecordFault }
    ensures writer { batch.new.writer ≡ batch.old.writer }
    ensures text { (number : ℕ) (before : List ℕ) → HasRejected separation.now.rejects batch.old.rejected before
        → OnOk result ((text : List ℕ) × IsRejectText separation.now.rejects separation.now.plan.now (fields_of separation.now.header.now) (record { number = number; fault = fault; fields = fields_of record.now }) text
        × HasRejected separation.now.rejects batch.new.rejected (before ++ text)) }
    ensures counted { OnOk result (batch.new.invalid ≡ batch.old.invalid + 1) }
{
    let invalid = Invalid {
        line: first_line(reader, record),
        fault,
        fields: record,
    };
    push_reject(alloc, separation, &invalid, &mut batch.rejected)?;
    let Some(count) = batch.invalid.checked_add(1) else {
        return Err(ImportFault::Read);
    };
    batch.invalid = count;
    Ok(())
}

// Adds the record with this number to the batch: its line, or what is written about it if it is invalid.
fn add_record<R: Read + LineEnds>(
    alloc: Global,
    separation: &Separation<'_>,
    number: u64,
    reader: &Reader<R>,
    record: &ByteRecord,
    batch: &mut Batch,
) -> Result<(), ImportFault>
    requires { 1 ≤ number }
    ensures fault { IfErr result IsNoRecordFault }
    ensures line { (text : List ℕ) → HasWritten batch.old.writer text
        → OnOk result (HasWritten batch.new.writer (text ++ line_of (import_record separation.now.plan.now number (fields_of record.now)))) }
    ensures rejected { (before : List ℕ) → HasRejected separation.now.rejects batch.old.rejected before
        → OnOk result ((text : List ℕ) × AreRejectTexts separation.now.rejects separation.now.plan.now (fields_of separation.now.header.now) (fault_of number (fields_of record.now) (import_record separation.now.plan.now number (fields_of record.now))) text
        × HasRejected separation.now.rejects batch.new.rejected (before ++ text)) }
    ensures invalid { OnOk result (batch.new.invalid ≡ batch.old.invalid + length (fault_of number (fields_of record.now) (import_record separation.now.plan.now number (fields_of record.now)))) }
{
    match import_record(
        separation.plan,
        number,
        record,
        &mut batch.fields,
        &mut batch.scratch,
    ) {
        Ok(()) => {
            write_line(&mut batch.writer, &batch.fields)?;
            Ok(())
        }
        Err(fault) => match fault.kind {
            RecordFaultKind::OutOfMemory => Err(ImportFault::OutOfMemory),
            _ => {
                add_reject(alloc, separation, reader, fault, record, batch)?;
                Ok(())
            }
        },
    }
}

// The part that the batch makes; `next` is the number of the next record.
fn part_of(batch: Batch, next: u64, more: bool) -> Result<SeparatedPart, AllocError>
    ensures text { (text : List ℕ) → HasWritten batch.writer text → IfOk result (λ part. part.text.items ≡ text) }
    ensures rejected { (rejects : Rejects) (text : List ℕ) → HasRejected rejects batch.rejected text → IfOk result (λ part. part.rejected.items ≡ text) }
    ensures invalid { IfOk result (λ part. part.invalid ≡ batch.invalid) }
    ensures next { IfOk result (λ part. part.next ≡ next) }
    ensures more { IfOk result (λ part. part.more ≡ more) }
{
    let Batch {
        writer,
        rejected,
        invalid,
        ..
    } = batch;
    let text = text_written(writer)?;
    let rejected = rejected_text(rejected)?;
    Ok(SeparatedPart {
        text,
        rejected,
        invalid,
        next,
        more,
    })
}

// Reads at most `PART` records, the first of which has this number, and makes the texts of the valid and of the invalid
// ones. Not inlined, so that the writer's buffers leave the stack.
#[inline(never)]
fn separate_part<R: Read + LineEnds>(
    alloc: Global,
    separation: &Separation<'_>,
    number: u64,
    reader: &mut Reader<R>,
    record: &mut ByteRecord,
) -> Result<SeparatedPart, ImportFault>
    requires { 1 ≤ number }
    ensures ok { (delimiter : ℕ) (left : List (List (List ℕ))) → HasLeft R.remaining delimiter reader.old left
        → IfOk result (IsSeparatedPart separation.now.plan.now separation.now.rejects (fields_of separation.now.header.now) number left R.remaining delimiter reader.new) }
    ensures next { IfOk result (λ part. number ≤ part.next) }
    ensures fault { IfErr result IsNoRecordFault }
{
    let mut batch = Batch::new(alloc, separation.rejects);
    let mut next = number;
    'records: for _ in 0..PART {
        if !next_record(reader, record)? {
            let part = part_of(batch, next, false)?;
            return Ok(part);
        }
        add_record(alloc, separation, next, reader, record, &mut batch)?;
        let Some(after) = next.checked_add(1) else {
            return Err(ImportFault::Read);
        };
        next = after;
    }
    let part = part_of(batch, next, true)?;
    Ok(part)
}

/// Writes the table file of the valid records that the reader has still to read, which come after the header, record 1.
/// Rows or messages about the invalid ones go to `rejected`. Both are written as records are read, so memory does not
/// grow with their number. `Read` if the reader failed, `Write` if a writer failed, `OutOfMemory` if an allocation
/// failed.
pub(crate) fn separate_records<R: Read + LineEnds, W: Write, V: Write>(
    alloc: Global,
    separation: &Separation<'_>,
    reader: &mut Reader<R>,
    record: &mut ByteRecord,
    sink: &mut Sink<W>,
    rejected: &mut Sink<V>,
) -> Result<Separated, ImportFault>
    ensures ok { (delimiter : ℕ) (left : List (List (List ℕ))) → HasLeft R.remaining delimiter reader.old left
        → IfOk result (IsSeparated separation.now.plan.now separation.now.rejects (fields_of separation.now.header.now) left (W.contents sink.old.writer) (W.contents sink.new.writer) (V.contents rejected.old.writer) (V.contents rejected.new.writer)) }
    ensures fault { IfErr result IsNoRecordFault }
{
    put(sink, &header_text(alloc, separation.plan)?)?;
    put(
        rejected,
        &rejects_header(alloc, separation.rejects, separation.header)?,
    )?;
    let mut number = 2;
    let mut invalid = 0u64;
    'parts: for _ in 0..u64::MAX {
        let part = separate_part(alloc, separation, number, reader, record)?;
        put(sink, &part.text)?;
        put(rejected, &part.rejected)?;
        number = part.next;
        let Some(sum) = invalid.checked_add(part.invalid) else {
            return Err(ImportFault::Read);
        };
        invalid = sum;
        if !part.more {
            return Ok(Separated {
                rows: (number - 2).saturating_sub(invalid),
                invalid,
            });
        }
    }
    Err(ImportFault::Read)
}
