// The values of a row that is written as a single record.

ghost use Rattle.std.specs.Prelude.{◌≡◌, IfOk, None, Some, if◌then◌else◌};
ghost use Rattle.csv.specs.Records.{fields_of};
ghost use Rattle.tq_event.specs.Loading.{csv_records};
ghost use Rattle.tq_event.specs.SingleRecord.{single_record, values_in, values_of};

use crate::fault::LoadFaultKind;
use crate::reading::read_fields;
use crate::records::{begins_with_bom, next_record, record_reader};
use csv::ByteRecord;
use std::alloc::{AllocError, Global};
use tq_base::{Column, Schema, Values};

// Reads the single record of the bytes; returns false if there is none or more than one.
fn read_single(alloc: Global, bytes: &[u8], record: &mut ByteRecord) -> Result<bool, AllocError>
    ensures { IfOk result (λ found. single_record (csv_records bytes.now) ≡ (if found then Some (fields_of record.new) else None)) }
{
    let mut reader = record_reader(alloc, bytes);
    if !next_record(&mut reader, record)? {
        return Ok(false);
    }
    let mut other = ByteRecord::new(alloc);
    let more = next_record(&mut reader, &mut other)?;
    Ok(!more)
}

// The values of the fields of the record, one for each column; `None` if they do not fit the columns.
fn fields_read(
    alloc: Global,
    columns: &[Column],
    record: &ByteRecord,
) -> Result<Option<Values>, AllocError>
    ensures { IfOk result (λ found. found ≡ values_in columns.now (fields_of record.now)) }
{
    if record.len() != columns.len() {
        return Ok(None);
    }
    let mut values = Vec::new(alloc);
    match read_fields(alloc, columns, &[], record, &mut values) {
        Ok(()) => Ok(Some(Values::of(values))),
        Err(LoadFaultKind::OutOfMemory) => Err(AllocError),
        Err(_) => Ok(None),
    }
}

/// The values of the single record in the bytes, read as in a file of this table but without a period. `None` if there
/// is not exactly one record, if its fields do not fit the columns, or if a byte order mark comes first. `AllocError`
/// if an allocation failed.
pub fn read_values(
    alloc: Global,
    schema: &Schema,
    bytes: &[u8],
) -> Result<Option<Values>, AllocError>
    ensures { IfOk result (λ found. found ≡ values_of schema.now.columns bytes.now) }
{
    if begins_with_bom(bytes) {
        return Ok(None);
    }
    let mut record = ByteRecord::new(alloc);
    if !read_single(alloc, bytes, &mut record)? {
        return Ok(None);
    }
    fields_read(alloc, schema.columns.get(), &record)
}
