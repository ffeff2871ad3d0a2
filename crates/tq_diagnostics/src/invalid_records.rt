// Messages about each invalid record of a file.

ghost use Rattle.std.specs.Prelude.{◌≡◌, ◌++◌, ℕ, List, IfOk, OnOk, codes, decimal, drop, length, nat_lt, take};
ghost use Rattle.std.specs.List.{flat_map};
ghost use Rattle.csv.specs.Records.{fields_of};
ghost use Rattle.tq_event.specs.Loading.{csv_records};
ghost use Rattle.tq_event.specs.Reading.{HasLeft};
ghost use Rattle.tq_diagnostics.specs.InvalidRecords.{IsRecordsText, fault_text, record_fault_text, faults_text, invalid_records_of, header_text, record_head, unlisted_text, text_if};
ghost use Rattle.tq_diagnostics.specs.Files.{IsColumnIf, is_header_invalid};
ghost use Rattle.tq_shown.specs.Printable.{printable_text};

use crate::contents::content_of;
use crate::faults::{is_invalid, read_columns};
use crate::fields::{push_number, push_record_detail};
use crate::files::{column_if, file_meaning, is_header_invalid, push_line};
use crate::lines::{line_scanner, next_line};
use csv::{ByteRecord, Reader};
use std::alloc::{AllocError, Global};
use tq_base::{Column, Form};
use tq_event::LoadFaultKind;
use tq_event::steps::{next_record, record_reader};
use tq_shown::push_printable;

// The most invalid records that are listed.
const MAX_LISTED: usize = 100;

// Where a record is in its file.
#[derive(Clone, Copy)]
struct RecordPlace {
    /// The number of the record, from 1; the header is the first.
    number: usize,
    /// The line on which the record begins, if it is found.
    line: Option<usize>,
}

// Appends the table, the number of a record, and the line on which it begins.
fn push_head(text: &mut Vec<u8>, name: &[u8], place: RecordPlace) -> Result<(), AllocError>
    ensures { OnOk result (text.new.items ≡ text.old.items ++ record_head name.now place.number place.line) }
{
    push_printable(text, name)?;
    text.extend_from_slice(b" record ")?;
    push_number(text, place.number)?;
    push_line(text, place.line)?;
    text.extend_from_slice(b": ")
}

// Appends the message for an invalid record.
fn push_fault(
    text: &mut Vec<u8>,
    form: Form,
    columns: &[Column],
    name: &[u8],
    place: RecordPlace,
    record: &ByteRecord,
) -> Result<(), AllocError>
    ensures { OnOk result (text.new.items ≡ text.old.items ++ record_fault_text form columns.now name.now place.number place.line (fields_of record.now)) }
{
    push_head(text, name, place)?;
    push_record_detail(text, form, columns, record)?;
    text.extend_from_slice(b"\n")
}

// Appends the message, unless `count` messages are the most that are listed.
fn push_fault_if_listed(
    text: &mut Vec<u8>,
    count: usize,
    form: Form,
    columns: &[Column],
    name: &[u8],
    place: RecordPlace,
    record: &ByteRecord,
) -> Result<(), AllocError>
    ensures { OnOk result (text.new.items ≡ text.old.items ++ text_if (nat_lt count 100) (record_fault_text form columns.now name.now place.number place.line (fields_of record.now))) }
{
    if count < MAX_LISTED {
        return push_fault(text, form, columns, name, place, record);
    }
    Ok(())
}

// Appends the number of further invalid records, more than one.
fn push_several(text: &mut Vec<u8>, name: &[u8], count: usize) -> Result<(), AllocError>
    ensures { OnOk result (text.new.items ≡ text.old.items ++ (printable_text name.now ++ codes ": " ++ decimal count ++ codes " more records are invalid\n")) }
{
    push_printable(text, name)?;
    text.extend_from_slice(b": ")?;
    push_number(text, count)?;
    text.extend_from_slice(b" more records are invalid\n")
}

// Appends that one further record is invalid.
fn push_single(text: &mut Vec<u8>, name: &[u8]) -> Result<(), AllocError>
    ensures { OnOk result (text.new.items ≡ text.old.items ++ (printable_text name.now ++ codes ": 1 more record is invalid\n")) }
{
    push_printable(text, name)?;
    text.extend_from_slice(b": 1 more record is invalid\n")
}

// Appends the number of further invalid records, if there are any.
fn push_unlisted(text: &mut Vec<u8>, name: &[u8], count: usize) -> Result<(), AllocError>
    ensures { OnOk result (text.new.items ≡ text.old.items ++ unlisted_text name.now count) }
{
    if count == 0 {
        return Ok(());
    }
    if count == 1 {
        return push_single(text, name);
    }
    push_several(text, name, count)
}

// Appends the messages for the first invalid records that the reader has left. Returns the number of all invalid ones.
fn push_listed_faults(
    alloc: Global,
    text: &mut Vec<u8>,
    form: Form,
    columns: &[Column],
    name: &[u8],
    bytes: &[u8],
    reader: &mut Reader<&[u8]>,
) -> Result<usize, AllocError>
    requires { HasLeft reader.old (drop 1 (csv_records bytes.now)) }
    ensures count { IfOk result (λ count. count ≡ length (invalid_records_of form columns.now bytes.now)) }
    ensures text { OnOk result (text.new.items ≡ text.old.items ++ flat_map (fault_text form columns.now name.now bytes.now) (take 100 (invalid_records_of form columns.now bytes.now))) }
{
    let mut scanner = line_scanner(bytes);
    let _header = next_line(bytes, &mut scanner);
    let mut record = ByteRecord::new(alloc);
    let mut values = Vec::new(alloc);
    let mut count = 0;
    'records: for before in 1..bytes.len() + 1 {
        if !next_record(reader, &mut record)? {
            return Ok(count);
        }
        let line = next_line(bytes, &mut scanner);
        if !is_invalid(alloc, form, columns, &record, &mut values)? {
            continue;
        }
        let place = RecordPlace {
            number: before + 1,
            line,
        };
        push_fault_if_listed(text, count, form, columns, name, place, &record)?;
        count += 1;
    }
    Ok(count)
}

// Appends the messages for the invalid records, and the number of those that are not listed.
fn push_faults(
    alloc: Global,
    text: &mut Vec<u8>,
    form: Form,
    columns: &[Column],
    name: &[u8],
    bytes: &[u8],
    reader: &mut Reader<&[u8]>,
) -> Result<(), AllocError>
    requires { HasLeft reader.old (drop 1 (csv_records bytes.now)) }
    ensures { OnOk result (text.new.items ≡ text.old.items ++ faults_text form columns.now name.now bytes.now (invalid_records_of form columns.now bytes.now)) }
{
    let count = push_listed_faults(alloc, text, form, columns, name, bytes, reader)?;
    push_unlisted(text, name, count.saturating_sub(MAX_LISTED))
}

// Appends the message for a header with a fault of this kind.
fn push_header(
    alloc: Global,
    text: &mut Vec<u8>,
    name: &[u8],
    bytes: &[u8],
    kind: LoadFaultKind,
) -> Result<(), AllocError>
    ensures { OnOk result ((column : List ℕ) × IsColumnIf (is_header_invalid kind bytes.now 1) bytes.now column × (text.new.items ≡ text.old.items ++ header_text name.now bytes.now kind column)) }
{
    let column = column_if(alloc, is_header_invalid(kind, bytes, 1), bytes)?;
    let mut scanner = line_scanner(bytes);
    let place = RecordPlace {
        number: 1,
        line: next_line(bytes, &mut scanner),
    };
    push_head(text, name, place)?;
    text.extend_from_slice(&column)?;
    text.extend_from_slice(file_meaning(false, content_of(bytes), kind))?;
    text.extend_from_slice(b"\n")
}

/// The messages for the invalid records of a file, for the table of this name. `bytes` is the file's content, and its
/// instants are in the form. Each of the first hundred is listed with the line on which it begins and what is wrong
/// there; the others are counted. An invalid header has a message of its own. Nothing if all records are valid.
/// `AllocError` if an allocation failed.
pub fn explain_records(
    alloc: Global,
    name: &[u8],
    bytes: &[u8],
    form: Form,
) -> Result<Vec<u8>, AllocError>
    ensures { IfOk result (λ text. IsRecordsText form name.now bytes.now text.items) }
{
    let mut text = Vec::new(alloc);
    let mut reader = record_reader(alloc, bytes);
    match read_columns(alloc, bytes, &mut reader) {
        Ok(columns) => push_faults(alloc, &mut text, form, &columns, name, bytes, &mut reader)?,
        Err(LoadFaultKind::OutOfMemory) => return Err(AllocError),
        Err(kind) => push_header(alloc, &mut text, name, bytes, kind)?,
    }
    Ok(text)
}
