// The records of a file, read one at a time.

ghost use Rattle.std.specs.Prelude.{◌≡◌, ℕ, IfOk, List, Some};
ghost use Rattle.csv.specs.Records.{fields_of};
ghost use Rattle.tq_import.specs.Reading.{HasLeft, TakesFirst, records_by};
ghost use Rattle.tq_import.specs.Records.{field_of};

use crate::fault::InputFault;
use csv::{ByteRecord, ErrorKind, Reader, ReaderBuilder};
use std::alloc::Global;
use std::io::Read;

/// A reader of the records of a file with this byte between fields.
pub fn record_reader<R: Read>(alloc: Global, input: R, delimiter: u8) -> Reader<R>
    ensures { (text : List ℕ) → R.remaining input ≡ Some text → HasLeft R.remaining delimiter result (records_by delimiter text) }
{
    ReaderBuilder::new()
        .has_headers(false)
        .flexible(true)
        .delimiter(delimiter)
        .from_reader(alloc, input)
}

/// Reads the next record and returns whether there was one. `Read` if the reader failed, `OutOfMemory` if an allocation
/// failed.
pub fn next_record<R: Read>(
    reader: &mut Reader<R>,
    record: &mut ByteRecord,
) -> Result<bool, InputFault>
    ensures { (delimiter : ℕ) (left : List (List (List ℕ))) → HasLeft R.remaining delimiter reader.old left
        → IfOk result (λ found. TakesFirst R.remaining delimiter found (fields_of record.new) left reader.new) }
{
    match reader.read_byte_record(record) {
        Ok(found) => Ok(found),
        Err(error) => match error.kind() {
            ErrorKind::OutOfMemory => Err(InputFault::OutOfMemory),
            _ => Err(InputFault::Read),
        },
    }
}

/// The field at a place; the empty one if there is none.
pub fn field_at(record: &ByteRecord, place: usize) -> &[u8]
    ensures { result.now ≡ field_of (fields_of record.entry.now) place }
{
    match record.get(place) {
        Some(field) => field,
        None => b"",
    }
}
