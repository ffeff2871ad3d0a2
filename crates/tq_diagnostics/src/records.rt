// One record of a file, and the line on which it begins.

ghost use Rattle.std.specs.Prelude.{◌≡◌, ◌≤◌, ◌<◌, IfOk, IfSome, None, Some, count_by, if◌then◌else◌, length, true};
ghost use Rattle.csv.specs.Records.{fields_of};
ghost use Rattle.tq_diagnostics.specs.Records.{Begins, IsLine, is_feed, record_of};

use crate::contents::is_line_end;
use csv::ByteRecord;
use std::alloc::{AllocError, Global};
use tq_event::steps::{next_record, record_reader};

/// Reads the record with this number, from 1, and returns whether there is one.
pub(crate) fn read_record(
    alloc: Global,
    bytes: &[u8],
    number: u32,
    record: &mut ByteRecord,
) -> Result<bool, AllocError>
    requires { 1 ≤ number }
    ensures { IfOk result (λ found. record_of bytes.now number ≡ (if found then Some (fields_of record.new) else None)) }
{
    let mut reader = record_reader(alloc, bytes);
    'records: for _before in 1..number {
        if !next_record(&mut reader, record)? {
            return Ok(false);
        }
    }
    let found = next_record(&mut reader, record)?;
    Ok(found)
}

// The byte at which the record begins, after the line ends before it. `bytes` is what it was read from.
fn record_offset(bytes: &[u8], record: &ByteRecord) -> usize
    ensures { result ≤ length bytes.now }
{
    let from = match record.position() {
        Some(position) => (position.byte() as usize).min(bytes.len()),
        None => 0,
    };
    for place in from..bytes.len() {
        if !is_line_end(bytes[place]) {
            return place;
        }
    }
    bytes.len()
}

// Whether the record with this number begins at this byte.
fn begins_at(alloc: Global, bytes: &[u8], number: u32, place: usize) -> Result<bool, AllocError>
    requires first { 1 ≤ number }
    requires within { place < length bytes.now }
    ensures { IfOk result (λ begins. begins ≡ true → Begins bytes.now number place) }
{
    let mut record = ByteRecord::new(alloc);
    let before = read_record(alloc, &bytes[..place], number, &mut record)?;
    let after = read_record(alloc, &bytes[..place + 1], number, &mut record)?;
    Ok(!before && after)
}

// The number of line feeds.
fn count_line_feeds(bytes: &[u8]) -> usize
    ensures value { result ≡ count_by is_feed bytes.now }
    ensures within { result ≤ length bytes.now }
{
    bytes.iter().filter(|byte| **byte == b'\n').count()
}

/// The line on which the record with this number begins, if it is found.
pub(crate) fn line_of(alloc: Global, bytes: &[u8], number: u32) -> Result<Option<usize>, AllocError>
    ensures { IfOk result (λ line. IfSome line (IsLine bytes.now number)) }
{
    let mut record = ByteRecord::new(alloc);
    if number == 0 || !read_record(alloc, bytes, number, &mut record)? {
        return Ok(None);
    }
    let place = record_offset(bytes, &record);
    if place == bytes.len() || !begins_at(alloc, bytes, number, place)? {
        return Ok(None);
    }
    Ok(Some(count_line_feeds(&bytes[..place]) + 1))
}
