// The names and headers of files.

ghost use Rattle.std.specs.Prelude.{◌≡◌, ◌≤◌, ◌++◌, ℕ, List, IfOk, Ok, false, length, true};
ghost use Rattle.tq_event.specs.Loading.{begins_with_bom, columns_of, next_name};
ghost use Rattle.tq_load.specs.Feeds.{ends_in_feed};
ghost use Rattle.tq_load.specs.Parts.{AreHeaded};

use crate::cut::{line_end, may_begin};
use crate::reading::may_be_open;
use csv::ByteRecord;
use std::alloc::{AllocError, Global};
use tq_base::{Column, List, Schema};
use tq_event::steps::{has_two_boms, next_record, read_header, read_name, record_reader};
use tq_event::{FileBytes, LoadFaultKind, TableFile};

// If a file is in several lists, its header line must have at least this many bytes: those of two byte order marks.
const MIN_HEADER_LENGTH: usize = 6;

// The columns in the header of the bytes.
fn columns_in(alloc: Global, bytes: &[u8]) -> Result<Vec<Column>, LoadFaultKind>
    ensures { IfOk result (λ columns. columns_of bytes.now ≡ Ok columns.items) }
{
    if has_two_boms(bytes) {
        return Err(LoadFaultKind::BadHeader);
    }
    let mut reader = record_reader(alloc, bytes);
    let mut header = ByteRecord::new(alloc);
    if !next_record(&mut reader, &mut header)? {
        return Err(LoadFaultKind::BadHeader);
    }
    read_header(alloc, &header)
}

// The columns in a header on a line of its own, whatever follows the line. A fault also if the line has no record or
// more than one.
fn columns_on_line(alloc: Global, line: &[u8]) -> Result<Vec<Column>, LoadFaultKind>
    requires feed { ends_in_feed line.now ≡ true }
    requires long { 6 ≤ length line.now }
    ensures { (more : List ℕ) → begins_with_bom more ≡ false → IfOk result (λ columns. columns_of (line.now ++ more) ≡ Ok columns.items) }
{
    if has_two_boms(line) {
        return Err(LoadFaultKind::BadHeader);
    }
    let mut reader = record_reader(alloc, line);
    let mut header = ByteRecord::new(alloc);
    if !next_record(&mut reader, &mut header)? || may_be_open(&header) {
        return Err(LoadFaultKind::BadHeader);
    }
    let mut second = ByteRecord::new(alloc);
    if next_record(&mut reader, &mut second)? {
        return Err(LoadFaultKind::BadHeader);
    }
    read_header(alloc, &header)
}

// The columns in the header of the bytes, or a fault. If the bytes are in several lists, the header must be the first
// line.
fn read_columns(alloc: Global, bytes: &FileBytes) -> Result<Vec<Column>, LoadFaultKind>
    ensures { IfOk result (λ columns. columns_of bytes.now ≡ Ok columns.items) }
{
    if let Some(whole) = bytes.whole() {
        return columns_in(alloc, whole);
    }
    let front = bytes.piece_from(0);
    let Some(end) = line_end(front, 0) else {
        return Err(LoadFaultKind::BadHeader);
    };
    if end < MIN_HEADER_LENGTH || !may_begin(&front[end..]) {
        return Err(LoadFaultKind::BadHeader);
    }
    columns_on_line(alloc, &front[..end])
}

// The schema of the file after these schemas.
fn read_schema(alloc: Global, schemas: &[Schema], file: &TableFile) -> Result<Schema, LoadFaultKind>
    ensures named { IfOk result (λ schema. next_name schemas.now file.now.name ≡ Ok schema.name) }
    ensures headed { IfOk result (λ schema. columns_of file.now.bytes ≡ Ok schema.columns) }
    ensures few { IfOk result (λ _. length schemas.now ≤ 15) }
{
    let name = read_name(alloc, schemas, file.name.get())?;
    let columns = List::of(read_columns(alloc, &file.bytes)?);
    Ok(Schema { name, columns })
}

/// The schemas of the files. After an error, loading may report another fault, or none if a header is in several lists.
pub fn read_schemas(alloc: Global, files: &[TableFile]) -> Result<Vec<Schema>, LoadFaultKind>
    ensures headed { IfOk result (λ schemas. AreHeaded files.now schemas.items) }
    ensures few { IfOk result (λ schemas. length schemas.items ≤ 16) }
{
    let mut schemas = Vec::new(alloc);
    'files: for file in files {
        let schema = read_schema(alloc, &schemas, file)?;
        schemas.push(schema).map_err(AllocError::from)?;
    }
    Ok(schemas)
}
