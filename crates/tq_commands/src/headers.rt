// The header lines of table files. They are enough to find the tables' columns again.

ghost use Rattle.std.specs.Prelude.{◌≡◌, ◌≤◌, ◌++◌, ℕ, List, IfOk, IfSome, IsTrue, length, map};
ghost use Rattle.std.specs.List.{prefix_len};
ghost use Rattle.tq_event.specs.Tables.{AreTables};
ghost use Rattle.tq_event.specs.declared.file.Tables.{Tables as AnyTables};
ghost use Rattle.tq_commands.specs.HeaderLines.{header_line, header_file, is_in_line, is_line_end};

use std::alloc::{AllocError, Global};
use tq_base::{Catalogue, Form, List};
use tq_event::{FileBytes, MAX_EVENTS, TableFile, load_tables};

fn is_line_end(byte: u8) -> bool
    ensures { result ≡ is_line_end byte }
{
    byte == b'\n' || byte == b'\r'
}

// The number of line ends at the start.
fn line_ends_length(bytes: &[u8]) -> usize
    ensures value { result ≡ prefix_len is_line_end bytes.now }
    ensures within { result ≤ length bytes.now }
{
    for (place, byte) in bytes.iter().enumerate() {
        if !is_line_end(*byte) {
            return place;
        }
    }
    bytes.len()
}

// The number of bytes before the first line end.
fn line_length(bytes: &[u8]) -> usize
    ensures value { result ≡ prefix_len is_in_line bytes.now }
    ensures within { result ≤ length bytes.now }
{
    for (place, byte) in bytes.iter().enumerate() {
        if is_line_end(*byte) {
            return place;
        }
    }
    bytes.len()
}

// The first line that is not empty.
fn header_line(bytes: &[u8]) -> &[u8]
    ensures { result.now ≡ header_line bytes.now }
{
    let lines = &bytes[line_ends_length(bytes)..];
    &lines[..line_length(lines)]
}

// Whether the bytes have a line that is not empty, and the end of that line. Then bytes after them do not change the
// header line.
fn has_header_line(bytes: &[u8]) -> bool
    ensures { IsTrue result → (more : List ℕ) → header_line (bytes.now ++ more) ≡ header_line bytes.now }
{
    let lines = &bytes[line_ends_length(bytes)..];
    line_length(lines) < lines.len()
}

// A copy of the header line of a file. If that line is not complete in the first list, the lists are combined first.
fn copy_header(alloc: Global, bytes: &FileBytes) -> Result<Vec<u8>, AllocError>
    ensures { IfOk result (λ head. head.items ≡ header_line bytes.now) }
{
    let front = bytes.piece_from(0);
    if has_header_line(front) {
        return Vec::from_slice(alloc, header_line(front));
    }
    let whole = bytes.to_vec(alloc)?;
    Vec::from_slice(alloc, header_line(&whole))
}

fn header_file(alloc: Global, file: &TableFile) -> Result<TableFile, AllocError>
    ensures { IfOk result (λ head. head ≡ header_file file.now) }
{
    Ok(TableFile {
        name: List::of(Vec::from_slice(alloc, file.name.get())?),
        bytes: FileBytes::of(copy_header(alloc, &file.bytes)?),
    })
}

/// The tables' names, with files that have only the header lines. `AllocError` if an allocation failed.
pub fn header_files(alloc: Global, files: &[TableFile]) -> Result<Vec<TableFile>, AllocError>
    ensures { IfOk result (λ headers. headers.items ≡ map header_file files.now) }
{
    let mut headers = Vec::with_capacity(alloc, files.len())?;
    'files: for file in files {
        headers.push(header_file(alloc, file)?)?;
    }
    Ok(headers)
}

/// The catalogue of files that have only header lines. `None` if a header is invalid or an allocation failed.
pub fn catalogue_of(alloc: Global, headers: Vec<TableFile>, form: Form) -> Option<Catalogue>
    ensures { IfSome result (λ catalogue. (tables : AnyTables) × AreTables form headers.items MAX_EVENTS tables × (catalogue ≡ tables.catalogue)) }
{
    match load_tables(alloc, headers, MAX_EVENTS, form) {
        Ok(tables) => Some(tables.catalogue),
        Err(_) => None,
    }
}
