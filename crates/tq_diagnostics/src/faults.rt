// The invalid records of a file.

ghost use Rattle.std.specs.Prelude.{◌≡◌, ◌≢◌, ◌≤◌, ◌++◌, Err, IfErr, IfOk, Ok, OnOk, codes, decimal, drop};
ghost use Rattle.csv.specs.Records.{fields_of};
ghost use Rattle.tq_event.specs.Loading.{columns_of, csv_records};
ghost use Rattle.tq_event.specs.Reading.{HasLeft};
ghost use Rattle.tq_diagnostics.specs.Faults.{invalid_count, invalid_after, later_text_under, is_invalid, more_text};

use crate::fields::push_number;
use csv::{ByteRecord, Reader};
use std::alloc::{AllocError, Global};
use tq_base::{Column, Form, Value};
use tq_event::LoadFaultKind;
use tq_event::steps::{has_two_boms, next_record, read_entry, read_header, record_reader};

/// The columns of the file's header, which is the first record that the reader reads.
pub(crate) fn read_columns(
    alloc: Global,
    bytes: &[u8],
    reader: &mut Reader<&[u8]>,
) -> Result<Vec<Column>, LoadFaultKind>
    requires { HasLeft reader.old (csv_records bytes.now) }
    ensures ok { IfOk result (λ columns. columns_of bytes.now ≡ Ok columns.items) }
    ensures left { OnOk result (HasLeft reader.new (drop 1 (csv_records bytes.now))) }
    ensures fault { IfErr result (λ fault. fault ≢ LoadFaultKind.OutOfMemory → columns_of bytes.now ≡ Err fault) }
{
    if has_two_boms(bytes) {
        return Err(LoadFaultKind::BadHeader);
    }
    let mut header = ByteRecord::new(alloc);
    if !next_record(reader, &mut header)? {
        return Err(LoadFaultKind::BadHeader);
    }
    read_header(alloc, &header)
}

/// Whether a record is not a valid row of a table of these columns. Its values are stored in the list.
pub(crate) fn is_invalid(
    alloc: Global,
    form: Form,
    columns: &[Column],
    record: &ByteRecord,
    values: &mut Vec<Value>,
) -> Result<bool, AllocError>
    ensures { IfOk result (λ faulty. faulty ≡ is_invalid form columns.now (fields_of record.now)) }
{
    match read_entry(alloc, columns, &[], record, values, form) {
        Ok(_) => Ok(false),
        Err(LoadFaultKind::OutOfMemory) => Err(AllocError),
        Err(_) => Ok(true),
    }
}

// 1 if the record is invalid and is to be counted, else 0.
fn invalid_count(
    alloc: Global,
    counts: bool,
    form: Form,
    columns: &[Column],
    record: &ByteRecord,
    values: &mut Vec<Value>,
) -> Result<usize, AllocError>
    ensures count { IfOk result (λ count. count ≡ invalid_count counts (is_invalid form columns.now (fields_of record.now))) }
    ensures few { IfOk result (λ count. count ≤ 1) }
{
    if counts && is_invalid(alloc, form, columns, record, values)? {
        return Ok(1);
    }
    Ok(0)
}

// The number of invalid records after the one with this number, among those that the reader has left.
fn invalid_after(
    alloc: Global,
    form: Form,
    columns: &[Column],
    bytes: &[u8],
    number: usize,
    reader: &mut Reader<&[u8]>,
) -> Result<usize, AllocError>
    requires some { 1 ≤ number }
    requires left { HasLeft reader.old (drop 1 (csv_records bytes.now)) }
    ensures { IfOk result (λ count. count ≡ invalid_after form columns.now bytes.now number) }
{
    let mut record = ByteRecord::new(alloc);
    let mut values = Vec::new(alloc);
    let mut count = 0;
    'records: for before in 1..bytes.len() + 1 {
        if !next_record(reader, &mut record)? {
            return Ok(count);
        }
        let counts = before >= number;
        count += invalid_count(alloc, counts, form, columns, &record, &mut values)?;
    }
    Ok(count)
}

// Appends the number of further invalid records, more than one.
fn push_several(text: &mut Vec<u8>, count: usize) -> Result<(), AllocError>
    ensures { OnOk result (text.new.items ≡ text.old.items ++ (codes ", and " ++ decimal count ++ codes " more records are invalid")) }
{
    text.extend_from_slice(b", and ")?;
    push_number(text, count)?;
    text.extend_from_slice(b" more records are invalid")
}

// Appends the number of further invalid records, if there are any.
fn push_more(text: &mut Vec<u8>, count: usize) -> Result<(), AllocError>
    ensures { OnOk result (text.new.items ≡ text.old.items ++ more_text count) }
{
    if count == 0 {
        return Ok(());
    }
    if count == 1 {
        return text.extend_from_slice(b", and 1 more record is invalid");
    }
    push_several(text, count)
}

// Appends the number of later invalid records, by these columns.
fn push_later_under(
    alloc: Global,
    text: &mut Vec<u8>,
    form: Form,
    columns: &[Column],
    bytes: &[u8],
    number: usize,
    reader: &mut Reader<&[u8]>,
) -> Result<(), AllocError>
    requires some { 1 ≤ number }
    requires left { HasLeft reader.old (drop 1 (csv_records bytes.now)) }
    ensures { OnOk result (text.new.items ≡ text.old.items ++ more_text (invalid_after form columns.now bytes.now number)) }
{
    let count = invalid_after(alloc, form, columns, bytes, number, reader)?;
    push_more(text, count)
}

/// Appends the number of invalid records of the file after the one with this number.
pub(crate) fn push_later(
    alloc: Global,
    text: &mut Vec<u8>,
    form: Form,
    bytes: &[u8],
    number: usize,
) -> Result<(), AllocError>
    requires { 1 ≤ number }
    ensures { OnOk result (text.new.items ≡ text.old.items ++ later_text_under form bytes.now number (columns_of bytes.now)) }
{
    let mut reader = record_reader(alloc, bytes);
    match read_columns(alloc, bytes, &mut reader) {
        Ok(columns) => push_later_under(alloc, text, form, &columns, bytes, number, &mut reader),
        Err(LoadFaultKind::OutOfMemory) => Err(AllocError),
        Err(_) => Ok(()),
    }
}
