// Messages about the fault of a file.

ghost use Rattle.std.specs.Prelude.{◌≡◌, ◌≤◌, ◌++◌, IfOk, OnOk};
ghost use Rattle.csv.specs.Records.{fields_of};
ghost use Rattle.tq_event.specs.Loading.{header_of};
ghost use Rattle.tq_diagnostics.specs.Faults.{later_text};
ghost use Rattle.tq_diagnostics.specs.Files as spec;
ghost use Rattle.tq_diagnostics.specs.Records.{line_text, record_of};

use crate::contents::{Content, content_of, is_plain};
use crate::faults::push_later;
use crate::fields::{push_number, push_record_detail};
use crate::file_hints::push_file_hints;
use crate::headers::column_of;
use crate::records::{line_of, read_record};
use csv::ByteRecord;
use std::alloc::{AllocError, Global};
use tq_base::Form;
use tq_event::steps::read_header;
use tq_event::{LoadFault, LoadFaultKind};
use tq_shown::push_printable;

// Appends what is wrong with a record by the columns of a header.
fn push_under_header(
    alloc: Global,
    text: &mut Vec<u8>,
    form: Form,
    header: &ByteRecord,
    record: &ByteRecord,
) -> Result<(), AllocError>
    ensures { OnOk result (text.new.items ≡ text.old.items ++ spec.detail_under form (header_of (fields_of header.now)) (fields_of record.now)) }
{
    match read_header(alloc, header) {
        Ok(columns) => push_record_detail(text, form, &columns, record),
        Err(LoadFaultKind::OutOfMemory) => Err(AllocError),
        Err(_) => Ok(()),
    }
}

// Appends what is wrong with the record with this number, from 1, by the file's header.
fn push_detail(
    alloc: Global,
    text: &mut Vec<u8>,
    form: Form,
    bytes: &[u8],
    number: u32,
) -> Result<(), AllocError>
    requires { 1 ≤ number }
    ensures { OnOk result (text.new.items ≡ text.old.items ++ spec.detail_of form (record_of bytes.now 1) (record_of bytes.now number)) }
{
    let mut header = ByteRecord::new(alloc);
    if !read_record(alloc, bytes, 1, &mut header)? {
        return Ok(());
    }
    let mut record = ByteRecord::new(alloc);
    if !read_record(alloc, bytes, number, &mut record)? {
        return Ok(());
    }
    push_under_header(alloc, text, form, &header, &record)
}

fn is_of_fields(kind: LoadFaultKind) -> bool
    ensures { result ≡ spec.is_of_fields kind }
{
    match kind {
        LoadFaultKind::BadHeader => false,
        LoadFaultKind::DuplicateName => false,
        LoadFaultKind::FieldCount => true,
        LoadFaultKind::BadInt => true,
        LoadFaultKind::TextTooLong => true,
        LoadFaultKind::BadPeriod => true,
        LoadFaultKind::NotUtf8 => true,
        LoadFaultKind::TooManyTables => false,
        LoadFaultKind::TooManyColumns => false,
        LoadFaultKind::TooManyEvents => false,
        LoadFaultKind::OutOfMemory => false,
    }
}

// The message for a file that is not a table file.
fn content_meaning(content: Content) -> &'static [u8]
    ensures { result.now ≡ spec.content_meaning content }
{
    match content {
        Content::Plain => {
            b"write the header as NAME:int or NAME:text for each column, an int first, then from,to"
        }
        Content::TwoMarks => b"the file begins with two byte order marks: remove one",
        Content::Gzip => {
            b"the file is compressed: decompress it, as in `gunzip -c FILE | tq ask --table NAME=- ..`"
        }
        Content::Zip => b"the file is a zip archive or a spreadsheet: save the table as CSV",
        Content::Utf16 => {
            b"the file is in UTF-16: convert it, as in `iconv -f UTF-16 -t UTF-8 FILE | tq ask --table NAME=- ..`"
        }
        Content::Empty => {
            b"the file is empty: its first line is a header, such as emp:int,name:text,from,to"
        }
    }
}

// The message for an invalid header: of a table's name (`named`), or of a file with this content.
fn header_meaning(named: bool, content: Content) -> &'static [u8]
    ensures { result.now ≡ spec.header_meaning named content }
{
    if named {
        return b"a table name is a letter or _, then letters, digits or _, at most 64 in all, and not a reserved word";
    }
    content_meaning(content)
}

// The message for two equal names: of tables (`named`), or of columns.
fn names_meaning(named: bool) -> &'static [u8]
    ensures { result.now ≡ spec.names_meaning named }
{
    if named {
        return b"two tables have the same name";
    }
    b"two columns have the same name"
}

/// The message for every fault except those of a record's fields; `named` if it is about the table's name.
pub(crate) fn file_meaning(named: bool, content: Content, kind: LoadFaultKind) -> &'static [u8]
    ensures { result.now ≡ spec.file_meaning named content kind }
{
    match kind {
        LoadFaultKind::BadHeader => header_meaning(named, content),
        LoadFaultKind::DuplicateName => names_meaning(named),
        LoadFaultKind::FieldCount => b"",
        LoadFaultKind::BadInt => b"",
        LoadFaultKind::TextTooLong => b"",
        LoadFaultKind::BadPeriod => b"",
        LoadFaultKind::NotUtf8 => b"",
        LoadFaultKind::TooManyTables => b"there are more than 16 tables",
        LoadFaultKind::TooManyColumns => b"there are more than 16 columns before from,to",
        LoadFaultKind::TooManyEvents => {
            b"with this row there are more than 16,777,216 starts and ends"
        }
        LoadFaultKind::OutOfMemory => b"out of memory",
    }
}

fn is_of_header(kind: LoadFaultKind) -> bool
    ensures { result ≡ spec.is_of_header kind }
{
    match kind {
        LoadFaultKind::BadHeader => true,
        LoadFaultKind::DuplicateName => true,
        LoadFaultKind::FieldCount => false,
        LoadFaultKind::BadInt => false,
        LoadFaultKind::TextTooLong => false,
        LoadFaultKind::BadPeriod => false,
        LoadFaultKind::NotUtf8 => false,
        LoadFaultKind::TooManyTables => false,
        LoadFaultKind::TooManyColumns => false,
        LoadFaultKind::TooManyEvents => false,
        LoadFaultKind::OutOfMemory => false,
    }
}

// The first field of the file's header that is not a valid column, as text.
fn column_in(alloc: Global, bytes: &[u8]) -> Result<Vec<u8>, AllocError>
    ensures { IfOk result (λ text. spec.IsColumnOf (record_of bytes.now 1) text.items) }
{
    let mut header = ByteRecord::new(alloc);
    if !read_record(alloc, bytes, 1, &mut header)? {
        return Ok(Vec::new(alloc));
    }
    column_of(alloc, &header)
}

/// `column_in` if the header is invalid, else nothing.
pub(crate) fn column_if(alloc: Global, at_fault: bool, bytes: &[u8]) -> Result<Vec<u8>, AllocError>
    ensures { IfOk result (λ text. spec.IsColumnIf at_fault bytes.now text.items) }
{
    if at_fault {
        return column_in(alloc, bytes);
    }
    Ok(Vec::new(alloc))
}

/// Whether the header is invalid, and the file may be a table file.
pub(crate) fn is_header_invalid(kind: LoadFaultKind, bytes: &[u8], number: u32) -> bool
    ensures { result ≡ spec.is_header_invalid kind bytes.now number }
{
    is_of_header(kind) && number > 0 && is_plain(content_of(bytes))
}

// Appends the message for a fault of this kind in the record with this number.
fn push_meaning(
    alloc: Global,
    text: &mut Vec<u8>,
    kind: LoadFaultKind,
    form: Form,
    bytes: &[u8],
    number: u32,
) -> Result<(), AllocError>
    ensures { OnOk result (text.new.items ≡ text.old.items ++ spec.meaning_of kind form bytes.now number) }
{
    if !is_of_fields(kind) {
        return text.extend_from_slice(file_meaning(number == 0, content_of(bytes), kind));
    }
    if number == 0 {
        return Ok(());
    }
    push_detail(alloc, text, form, bytes, number)
}

// Appends the number of later invalid records, if the fault is one of a record's fields.
fn push_later_if(
    alloc: Global,
    text: &mut Vec<u8>,
    of_fields: bool,
    form: Form,
    bytes: &[u8],
    number: u32,
) -> Result<(), AllocError>
    ensures { OnOk result (text.new.items ≡ text.old.items ++ later_text of_fields form bytes.now number) }
{
    if of_fields && number > 0 {
        return push_later(alloc, text, form, bytes, number as usize);
    }
    Ok(())
}

/// Appends the line, if there is one.
pub(crate) fn push_line(text: &mut Vec<u8>, line: Option<usize>) -> Result<(), AllocError>
    ensures { OnOk result (text.new.items ≡ text.old.items ++ line_text line) }
{
    let Some(line) = line else {
        return Ok(());
    };
    text.extend_from_slice(b", line ")?;
    push_number(text, line)
}

// Appends a path; `-` is standard input.
fn push_path(text: &mut Vec<u8>, path: &[u8]) -> Result<(), AllocError>
    ensures { OnOk result (text.new.items ≡ text.old.items ++ spec.path_text path.now) }
{
    if path == b"-".as_slice() {
        return text.extend_from_slice(b"standard input");
    }
    push_printable(text, path)
}

/// The message for a fault of the file at a path. `bytes` is its content, and its instants are in the form. The message
/// has the path, the line on which the invalid record begins, and what is wrong there. For a fault of a record's fields
/// it also counts the later invalid records. Below it are hints. `AllocError` if an allocation failed.
pub fn explain_file(
    alloc: Global,
    path: &[u8],
    bytes: &[u8],
    fault: LoadFault,
    form: Form,
) -> Result<Vec<u8>, AllocError>
    ensures { IfOk result (λ text. spec.IsFileDetail form path.now bytes.now fault text.items) }
{
    let LoadFault { kind, number, .. } = fault;
    let line = line_of(alloc, bytes, number)?;
    let header = is_header_invalid(kind, bytes, number);
    let column = column_if(alloc, header, bytes)?;
    let mut text = Vec::new(alloc);
    text.extend_from_slice(b"  ")?;
    push_path(&mut text, path)?;
    push_line(&mut text, line)?;
    text.extend_from_slice(b": ")?;
    text.extend_from_slice(&column)?;
    push_meaning(alloc, &mut text, kind, form, bytes, number)?;
    push_later_if(alloc, &mut text, is_of_fields(kind), form, bytes, number)?;
    text.push(b'\n')?;
    push_file_hints(alloc, &mut text, header, kind, form, bytes, number)?;
    Ok(text)
}
