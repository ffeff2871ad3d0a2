// From the records of a file to a table file, a part at a time.

ghost use Rattle.std.specs.Prelude.{◌≡◌, ◌≢◌, ◌≤◌, ℕ, IfErr, IfOk, List, OnOk};
ghost use Rattle.std.specs.Io.KnownBytes.{Appends};
ghost use Rattle.csv.specs.Records.{fields_of};
ghost use Rattle.tq_import.specs.Imports.{IsFaultAfter, IsFirstFault, IsImport, IsPartOf};
ghost use Rattle.tq_import.specs.Reading.{HasLeft};

use crate::converting::import_record;
use crate::fault::{ImportFault, NumberedFault, RecordFault, RecordFaultKind};
use crate::part::{Imported, Part};
use crate::plan::Plan;
use crate::reading::next_record;
use crate::scratch::Scratch;
use crate::writing::header_text;
use csv::{ByteRecord, Reader};
use std::alloc::Global;
use std::io::{Read, Write};
use tq_table::{Sink, line_writer, text_written, write_line};

// The most records of a part, whose lines are written together.
const PART: u32 = 1024;

// The fault of the record with this number.
fn fault_of(number: u64, fault: RecordFault) -> ImportFault
    ensures record { fault.kind ≢ RecordFaultKind.OutOfMemory → result ≡ ImportFault.Record (record { number = number; fault = fault }) }
    ensures memory { fault.kind ≡ RecordFaultKind.OutOfMemory → result ≡ ImportFault.OutOfMemory }
{
    if matches!(fault.kind, RecordFaultKind::OutOfMemory) {
        ImportFault::OutOfMemory
    } else {
        ImportFault::Record(NumberedFault { number, fault })
    }
}

// Reads at most `PART` records, the first of which has this number, and makes their lines. Not inlined, so that the
// writer's buffers leave the stack.
#[inline(never)]
fn import_part<R: Read>(
    alloc: Global,
    plan: &Plan<'_>,
    number: u64,
    reader: &mut Reader<R>,
    record: &mut ByteRecord,
) -> Result<Part, ImportFault>
    requires { 1 ≤ number }
    ensures ok { (delimiter : ℕ) (left : List (List (List ℕ))) → HasLeft R.remaining delimiter reader.old left
        → IfOk result (IsPartOf plan.now number left R.remaining delimiter reader.new) }
    ensures next { IfOk result (λ part. number ≤ part.next) }
    ensures fault { (delimiter : ℕ) (left : List (List (List ℕ))) → HasLeft R.remaining delimiter reader.old left
        → IfErr result (IsFaultAfter plan.now number left (fields_of record.new)) }
{
    let mut writer = line_writer(alloc);
    let mut fields = ByteRecord::new(alloc);
    let mut scratch = Scratch::new(alloc);
    let mut next = number;
    'records: for _ in 0..PART {
        if !next_record(reader, record)? {
            let text = text_written(writer)?;
            return Ok(Part {
                text,
                next,
                more: false,
            });
        }
        if let Err(fault) = import_record(plan, next, record, &mut fields, &mut scratch) {
            return Err(fault_of(next, fault));
        }
        write_line(&mut writer, &fields)?;
        let Some(after) = next.checked_add(1) else {
            return Err(ImportFault::Read);
        };
        next = after;
    }
    let text = text_written(writer)?;
    Ok(Part {
        text,
        next,
        more: true,
    })
}

/// Writes the bytes.
pub(crate) fn put<W: Write>(sink: &mut Sink<W>, bytes: &[u8]) -> Result<(), ImportFault>
    ensures whole { OnOk result (Appends (W.contents sink.old.writer) (W.contents sink.new.writer) bytes.now) }
    ensures fault { IfErr result (λ fault. fault ≡ ImportFault.Write) }
{
    match sink.put(bytes) {
        Ok(()) => Ok(()),
        Err(_) => Err(ImportFault::Write),
    }
}

/// Writes the table file of the records that the reader has still to read, which come after the header, record 1. Lines
/// are written as records are read, so memory does not grow with their number. Returns the first fault in the order of
/// records and checks, with the invalid record in `record`; `Read` if the reader failed, `Write` if the writer failed,
/// `OutOfMemory` if an allocation failed.
pub fn import_records<R: Read, W: Write>(
    alloc: Global,
    plan: &Plan<'_>,
    reader: &mut Reader<R>,
    record: &mut ByteRecord,
    sink: &mut Sink<W>,
) -> Result<Imported, ImportFault>
    ensures ok { (delimiter : ℕ) (left : List (List (List ℕ))) → HasLeft R.remaining delimiter reader.old left
        → IfOk result (IsImport plan.now left (W.contents sink.old.writer) (W.contents sink.new.writer)) }
    ensures fault { (delimiter : ℕ) (left : List (List (List ℕ))) → HasLeft R.remaining delimiter reader.old left
        → IfErr result (IsFirstFault plan.now left (fields_of record.new)) }
{
    put(sink, &header_text(alloc, plan)?)?;
    let mut number = 2;
    'parts: for _ in 0..u64::MAX {
        let part = match import_part(alloc, plan, number, reader, record) {
            Ok(part) => part,
            Err(fault) => return Err(fault),
        };
        let Part { text, next, more } = part;
        put(sink, &text)?;
        number = next;
        if !more {
            return Ok(Imported { rows: number - 2 });
        }
    }
    Err(ImportFault::Read)
}
