// The first invalid column of a header.

ghost use Rattle.std.specs.Prelude.{◌≡◌, ◌<◌, ◌≤◌, ◌++◌, IfOk, OnOk, codes, length};
ghost use Rattle.csv.specs.Records.{fields_of};
ghost use Rattle.tq_diagnostics.specs.Fields.{shown_value};
ghost use Rattle.tq_diagnostics.specs.Headers.{IsColumn, IsFirstBad, column_text, header_prefix, checked_fields, reads_to};

use crate::fields::{field_at, push_value};
use csv::ByteRecord;
use std::alloc::{AllocError, Global};
use tq_event::LoadFaultKind;
use tq_event::steps::{MAX_COLUMNS, read_header};

// The header of the first `count` fields.
fn header_prefix(alloc: Global, header: &ByteRecord, count: usize) -> Result<ByteRecord, AllocError>
    requires { count ≤ length (fields_of header.now) }
    ensures { IfOk result (λ front. fields_of front ≡ header_prefix (fields_of header.now) count) }
{
    let mut front = ByteRecord::new(alloc);
    'fields: for place in 0..count {
        front.push_field(field_at(header, place))?;
    }
    front.push_field(b"from")?;
    front.push_field(b"to")?;
    Ok(front)
}

// Whether the first `count` fields make a valid header.
fn reads_to(alloc: Global, header: &ByteRecord, count: usize) -> Result<bool, AllocError>
    requires { count ≤ length (fields_of header.now) }
    ensures { IfOk result (λ reads. reads ≡ reads_to (fields_of header.now) count) }
{
    let front = header_prefix(alloc, header, count)?;
    match read_header(alloc, &front) {
        Ok(_) => Ok(true),
        Err(LoadFaultKind::OutOfMemory) => Err(AllocError),
        Err(_) => Ok(false),
    }
}

// The number of fields that are checked.
fn checked_fields(header: &ByteRecord) -> usize
    ensures value { result ≡ checked_fields (fields_of header.now) }
    ensures within { result ≤ length (fields_of header.now) }
{
    header.len().saturating_sub(2).min(MAX_COLUMNS)
}

// The first field with which the fields so far do not make a valid header.
fn first_bad(alloc: Global, header: &ByteRecord) -> Result<Option<usize>, AllocError>
    ensures { IfOk result (λ place. IsFirstBad (fields_of header.now) place) }
{
    let count = checked_fields(header);
    'fields: for place in 0..count {
        if !reads_to(alloc, header, place + 1)? {
            return Ok(Some(place));
        }
    }
    Ok(None)
}

fn push_bad(text: &mut Vec<u8>, field: &[u8]) -> Result<(), AllocError>
    ensures { OnOk result (text.new.items ≡ text.old.items ++ codes "invalid column `" ++ shown_value field.now ++ codes "`: ") }
{
    text.extend_from_slice(b"invalid column `")?;
    push_value(text, field)?;
    text.extend_from_slice(b"`: ")
}

// Appends a field as it is shown in the message.
fn push_column(
    text: &mut Vec<u8>,
    header: &ByteRecord,
    place: Option<usize>,
) -> Result<(), AllocError>
    requires { IsFirstBad (fields_of header.now) place }
    ensures { OnOk result (text.new.items ≡ text.old.items ++ column_text (fields_of header.now) place) }
{
    let Some(place) = place else {
        return Ok(());
    };
    push_bad(text, field_at(header, place))
}

/// The first field of a header that is not a valid column after those before it, as text.
pub(crate) fn column_of(alloc: Global, header: &ByteRecord) -> Result<Vec<u8>, AllocError>
    ensures { IfOk result (λ text. IsColumn (fields_of header.now) text.items) }
{
    let place = first_bad(alloc, header)?;
    let mut text = Vec::new(alloc);
    push_column(&mut text, header, place)?;
    Ok(text)
}
