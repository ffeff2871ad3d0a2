// Reading the records of a part.

ghost use Rattle.std.specs.Prelude.{◌≡◌, ℕ, List, IfOk, OnOk, length, true};
ghost use Rattle.csv.specs.Records.{fields_of};
ghost use Rattle.tq_event.specs.Loading.{csv_records};
ghost use Rattle.tq_event.specs.Reading.{HasLeft};
ghost use Rattle.tq_load.specs.Feeds.{AreClosed, ends_in_feed, may_be_open};
ghost use Rattle.tq_load.specs.Parts.{EndsRecords, PartParsesProjected, ParseProjected};
ghost use Rattle.tq_load.specs.Reading.{PassesHeader};

use csv::{ByteRecord, Reader};
use std::alloc::Global;
use tq_base::{Column, Form, Rows};
use tq_event::LoadFaultKind;
use tq_event::steps::{next_record, read_entry, record_reader};

/// Whether the last byte is a line feed.
pub fn ends_in_feed(bytes: &[u8]) -> bool
    ensures { result ≡ ends_in_feed bytes.now }
{
    match bytes.last() {
        Some(last) => *last == b'\n',
        None => false,
    }
}

/// Whether the last field of the record ends with a line feed. It does if the bytes end with a line feed inside quotes,
/// and then no record begins after them.
pub fn may_be_open(record: &ByteRecord) -> bool
    ensures { result ≡ may_be_open (fields_of record.now) }
{
    let count = record.len();
    if count == 0 {
        return false;
    }
    match record.get(count - 1) {
        Some(field) => ends_in_feed(field),
        None => false,
    }
}

// Reads past the header of a file, which only a part from place 0 on has.
fn pass_header(alloc: Global, reader: &mut Reader<&[u8]>, start: usize) -> Result<(), LoadFaultKind>
    requires { (left : List (List (List ℕ))) × HasLeft reader.old left }
    ensures { (left : List (List (List ℕ))) → HasLeft reader.old left → OnOk result ((more : List (List (List ℕ))) × PassesHeader start left more × HasLeft reader.new more) }
{
    if start != 0 {
        return Ok(());
    }
    let mut header = ByteRecord::new(alloc);
    if next_record(reader, &mut header)? && !may_be_open(&header) {
        Ok(())
    } else {
        Err(LoadFaultKind::BadHeader)
    }
}

// The rows of the reader's records, with only the wanted values kept. A fault if there are more than `limit` records,
// or if the last field of one of them ends with a line feed.
fn read_rows(
    alloc: Global,
    limit: u32,
    columns: &[Column],
    wanted: &[bool],
    reader: &mut Reader<&[u8]>,
    form: Form,
) -> Result<Rows, LoadFaultKind>
    requires { (left : List (List (List ℕ))) × HasLeft reader.old left }
    ensures wide { IfOk result (λ rows. rows.width ≡ length columns.now) }
    ensures parsed { (left : List (List (List ℕ))) → HasLeft reader.old left → IfOk result (λ rows. ParseProjected form columns.now wanted.now left rows.items) }
    ensures closed { (left : List (List (List ℕ))) → HasLeft reader.old left → IfOk result (λ _. AreClosed left) }
{
    let mut row = ByteRecord::new(alloc);
    let mut values = Vec::new(alloc);
    let mut rows = Rows::with_columns(alloc, columns, wanted)?;
    'rows: for _ in 0..=limit {
        if !next_record(reader, &mut row)? {
            return Ok(rows);
        }
        if may_be_open(&row) {
            return Err(LoadFaultKind::BadPeriod);
        }
        let period = read_entry(alloc, columns, wanted, &row, &mut values, form)?;
        rows.push(&mut values, period)?;
    }
    Err(LoadFaultKind::TooManyEvents)
}

/// The rows of a part of a file with these columns, with only the wanted values kept; the part begins at place `start`.
/// A fault if the part is invalid, has too many records, or may end inside quotes. Not inlined, so that the reader's
/// buffers leave the stack.
#[inline(never)]
pub fn read_part(
    alloc: Global,
    limit: u32,
    columns: &[Column],
    wanted: &[bool],
    bytes: &[u8],
    start: usize,
    form: Form,
) -> Result<Rows, LoadFaultKind>
    ensures wide { IfOk result (λ rows. rows.width ≡ length columns.now) }
    ensures parsed { IfOk result (λ rows. PartParsesProjected form start columns.now wanted.now (csv_records bytes.now) rows.items) }
    ensures ends { IfOk result (λ _. ends_in_feed bytes.now ≡ true → EndsRecords bytes.now) }
{
    let mut reader = record_reader(alloc, bytes);
    pass_header(alloc, &mut reader, start)?;
    read_rows(alloc, limit, columns, wanted, &mut reader, form)
}
