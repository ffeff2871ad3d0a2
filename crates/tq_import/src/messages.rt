// What people are shown of an import.

ghost use Rattle.std.specs.Prelude.{◌≡◌, ◌++◌, ◌==◌, ◌&&◌, IfOk, OnOk, codes, decimal, if◌then◌else◌};
ghost use Rattle.csv.specs.Records.{fields_of};
ghost use Rattle.tq_import.specs.Messages.{IsFaultText, fault_detail, front, instant_rule, is_number, message_line, number_rule, places_at, places_or, places_rule, quoted, reason, record_message, unit_rule};
ghost use Rattle.tq_import.specs.Records.{field_of};
ghost use Rattle.tq_shown.specs.Printable.{printable_text};

use crate::fault::{ImportFault, RecordFault, RecordFaultKind};
use crate::plan::{Conversion, Plan, PlannedColumn, TimeFormat, TimeUnit};
use crate::planning::{PlanFault, PlanFaultKind};
use crate::reading::field_at;
use crate::whole::{FileFault, ReadRecords};
use csv::ByteRecord;
use itoa::Buffer;
use std::alloc::{AllocError, Global};
use tq_shown::push_printable;

// The most bytes of a value that are shown.
const MAX_SHOWN: usize = 60;

fn push_count(text: &mut Vec<u8>, number: usize) -> Result<(), AllocError>
    ensures { OnOk result (text.new.items ≡ text.old.items ++ decimal number) }
{
    text.extend_from_slice(Buffer::new().format(number).as_bytes())
}

fn push_number(text: &mut Vec<u8>, number: u64) -> Result<(), AllocError>
    ensures { OnOk result (text.new.items ≡ text.old.items ++ decimal number) }
{
    text.extend_from_slice(Buffer::new().format(number).as_bytes())
}

// Appends a value, or the front of a long one.
fn push_front(text: &mut Vec<u8>, value: &[u8]) -> Result<(), AllocError>
    ensures { OnOk result (text.new.items ≡ text.old.items ++ front value.now) }
{
    text.extend_from_slice(&value[..value.len().min(MAX_SHOWN)])?;
    if value.len() > MAX_SHOWN {
        text.extend_from_slice(b"..")?;
    }
    Ok(())
}

// Appends the value between backquotes; of a long one, its front.
fn push_quoted(text: &mut Vec<u8>, value: &[u8]) -> Result<(), AllocError>
    ensures { OnOk result (text.new.items ≡ text.old.items ++ quoted value.now) }
{
    text.extend_from_slice(b"`")?;
    push_front(text, value)?;
    text.extend_from_slice(b"`")?;
    Ok(())
}

fn is_number(conversion: Conversion) -> bool
    ensures { result ≡ is_number conversion }
{
    match conversion {
        Conversion::Number(_) => true,
        Conversion::Text => false,
    }
}

fn places_or(conversion: Conversion, other: usize) -> usize
    ensures { result ≡ places_or conversion other }
{
    match conversion {
        Conversion::Number(places) => places,
        Conversion::Text => other,
    }
}

// The digits after the point that the column has.
fn places_at(columns: &[PlannedColumn], place: usize) -> usize
    ensures { result ≡ places_at columns.now place }
{
    let mut rest = columns;
    'each: while let [column, more @ ..] = rest {
        if column.place == place && is_number(column.conversion) {
            return places_or(column.conversion, 0);
        }
        rest = more;
    }
    0
}

fn decimals(places: usize) -> &'static [u8]
    ensures { result.now ≡ (if places == 1 then codes " decimal" else codes " decimals") }
{
    if places == 1 {
        b" decimal"
    } else {
        b" decimals"
    }
}

// Appends that a number needs at most this many digits after the point.
fn push_places_rule(text: &mut Vec<u8>, places: usize) -> Result<(), AllocError>
    ensures { OnOk result (text.new.items ≡ text.old.items ++ places_rule places) }
{
    text.extend_from_slice(b" is not a number of 64 bits with at most ")?;
    push_count(text, places)?;
    text.extend_from_slice(decimals(places))?;
    Ok(())
}

fn push_number_rule(text: &mut Vec<u8>, places: usize) -> Result<(), AllocError>
    ensures { OnOk result (text.new.items ≡ text.old.items ++ number_rule places) }
{
    if places == 0 {
        return text.extend_from_slice(
            b" is not a whole number of 64 bits: use --decimal NAME=PLACES or --text NAME",
        );
    }
    push_places_rule(text, places)
}

// What a value is not besides a date in the format.
fn unit_rule(unit: TimeUnit) -> &'static [u8]
    ensures { result.now ≡ unit_rule unit }
{
    match unit {
        TimeUnit::Day => b"",
        TimeUnit::Second => b", from 1970 on, with or without a time HH:MM:SS",
    }
}

// Appends that a field is not a date in the format.
fn push_format(text: &mut Vec<u8>, format: &[u8], unit: TimeUnit) -> Result<(), AllocError>
    ensures { OnOk result (text.new.items ≡ text.old.items ++ (codes " is not a date in the format " ++ format.now ++ unit_rule unit)) }
{
    text.extend_from_slice(b" is not a date in the format ")?;
    text.extend_from_slice(format)?;
    text.extend_from_slice(unit_rule(unit))?;
    Ok(())
}

fn push_instant_rule(text: &mut Vec<u8>, times: &TimeFormat) -> Result<(), AllocError>
    ensures { OnOk result (text.new.items ≡ text.old.items ++ instant_rule times.now) }
{
    match &times.dates {
        Some(format) => push_format(text, format.get(), times.unit),
        None => text.extend_from_slice(
            b" is not a number from 0 to 999999999999: use --date-format for dates",
        ),
    }
}

// Appends what is wrong with an end.
fn push_end_rule(text: &mut Vec<u8>, times: &TimeFormat) -> Result<(), AllocError>
    ensures { OnOk result (text.new.items ≡ text.old.items ++ (instant_rule times.now ++ codes ", nor an open end: use --open TEXT for those")) }
{
    push_instant_rule(text, times)?;
    text.extend_from_slice(b", nor an open end: use --open TEXT for those")
}

// Appends what is wrong with a value.
fn push_reason(
    text: &mut Vec<u8>,
    plan: &Plan<'_>,
    kind: RecordFaultKind,
    place: usize,
) -> Result<(), AllocError>
    ensures { OnOk result (text.new.items ≡ text.old.items ++ reason plan.now kind place) }
{
    match kind {
        RecordFaultKind::BadNumber => push_number_rule(text, places_at(plan.columns.get(), place)),
        RecordFaultKind::NotUtf8 => text.extend_from_slice(
            b" is not valid UTF-8: use --encoding latin1 if the file is in Latin-1",
        ),
        RecordFaultKind::TextTooLong => text.extend_from_slice(b" has more than 1,000 bytes"),
        RecordFaultKind::BadFrom => push_instant_rule(text, plan.times),
        RecordFaultKind::BadTo => push_end_rule(text, plan.times),
        RecordFaultKind::EmptyPeriod => text.extend_from_slice(b" is not after the start"),
        RecordFaultKind::FieldCount => Ok(()),
        RecordFaultKind::OutOfMemory => Ok(()),
    }
}

fn push_field_counts(text: &mut Vec<u8>, wanted: usize, found: usize) -> Result<(), AllocError>
    ensures { OnOk result (text.new.items ≡ text.old.items ++ (codes "the header has " ++ decimal wanted ++ codes " fields, but this record has " ++ decimal found)) }
{
    text.extend_from_slice(b"the header has ")?;
    push_count(text, wanted)?;
    text.extend_from_slice(b" fields, but this record has ")?;
    push_count(text, found)
}

// Appends the column, its value and what is wrong with it.
fn push_value_fault(
    text: &mut Vec<u8>,
    plan: &Plan<'_>,
    header: &ByteRecord,
    fault: RecordFault,
    record: &ByteRecord,
) -> Result<(), AllocError>
    ensures { OnOk result (text.new.items ≡ text.old.items ++ (field_of (fields_of header.now) fault.place ++ codes " " ++ quoted (field_of (fields_of record.now) fault.place) ++ reason plan.now fault.kind fault.place)) }
{
    text.extend_from_slice(field_at(header, fault.place))?;
    text.extend_from_slice(b" ")?;
    push_quoted(text, field_at(record, fault.place))?;
    push_reason(text, plan, fault.kind, fault.place)
}

// Appends what is wrong with a record.
fn push_detail(
    text: &mut Vec<u8>,
    plan: &Plan<'_>,
    header: &ByteRecord,
    fault: RecordFault,
    record: &ByteRecord,
) -> Result<(), AllocError>
    ensures { OnOk result (text.new.items ≡ text.old.items ++ fault_detail plan.now (fields_of header.now) fault.kind fault.place (fields_of record.now)) }
{
    match fault.kind {
        RecordFaultKind::FieldCount => push_field_counts(text, header.len(), record.len()),
        _ => push_value_fault(text, plan, header, fault, record),
    }
}

/// An invalid record: the line of the file on which it begins, its fault, and its fields.
#[derive(Clone, Copy)]
pub(crate) struct Invalid<'a> {
    pub line: u64,
    pub fault: RecordFault,
    pub fields: &'a ByteRecord,
}

// Appends the line of the record, and what is wrong with it.
fn push_record_message(
    text: &mut Vec<u8>,
    plan: &Plan<'_>,
    header: &ByteRecord,
    invalid: &Invalid<'_>,
) -> Result<(), AllocError>
    ensures { OnOk result (text.new.items ≡ text.old.items ++ record_message plan.now (fields_of header.now) invalid.now.line invalid.now.fault (fields_of invalid.now.fields.now)) }
{
    text.extend_from_slice(b"line ")?;
    push_number(text, invalid.line)?;
    text.extend_from_slice(b": ")?;
    push_detail(text, plan, header, invalid.fault, invalid.fields)
}

// The path of the file, and what is wrong with a record.
fn message_of(
    alloc: Global,
    path: &[u8],
    plan: &Plan<'_>,
    header: &ByteRecord,
    invalid: &Invalid<'_>,
) -> Result<Vec<u8>, AllocError>
    ensures { IfOk result (λ text. text.items ≡ path.now ++ codes ", " ++ record_message plan.now (fields_of header.now) invalid.now.line invalid.now.fault (fields_of invalid.now.fields.now)) }
{
    let mut text = Vec::new(alloc);
    text.extend_from_slice(path)?;
    text.extend_from_slice(b", ")?;
    push_record_message(&mut text, plan, header, invalid)?;
    Ok(text)
}

// Appends a message as a line of standard error.
fn push_error_line(text: &mut Vec<u8>, message: &[u8]) -> Result<(), AllocError>
    ensures { OnOk result (text.new.items ≡ text.old.items ++ (codes "tq: import " ++ printable_text message.now ++ codes "\n")) }
{
    text.extend_from_slice(b"tq: import ")?;
    push_printable(text, message)?;
    text.extend_from_slice(b"\n")?;
    Ok(())
}

/// Appends a line of standard error that says what is wrong with an invalid record, in the file at this path.
pub(crate) fn push_message_line(
    alloc: Global,
    path: &[u8],
    plan: &Plan<'_>,
    header: &ByteRecord,
    invalid: &Invalid<'_>,
    text: &mut Vec<u8>,
) -> Result<(), AllocError>
    ensures { OnOk result (text.new.items ≡ text.old.items ++ message_line path.now plan.now (fields_of header.now) invalid.now.line invalid.now.fault (fields_of invalid.now.fields.now)) }
{
    let message = message_of(alloc, path, plan, header, invalid)?;
    push_error_line(text, &message)?;
    Ok(())
}

fn plan_reason(kind: PlanFaultKind) -> &'static [u8] {
    match kind {
        PlanFaultKind::UnknownColumn => b" is not in the header",
        PlanFaultKind::BadName => b" gives no valid name: use --rename OLD=NEW or --without NAME",
        PlanFaultKind::DuplicateName =>
            b" is the name of two columns: use --rename OLD=NEW or --without NAME",
        PlanFaultKind::TextKey =>
            b" is the key, which has to be a number: use --number for row numbers",
        PlanFaultKind::TooManyColumns =>
            b"there are more than 16 columns: use --columns or --without",
        PlanFaultKind::OutOfMemory => b"",
    }
}

fn push_plan_fault(text: &mut Vec<u8>, line: u64, fault: &PlanFault) -> Result<(), AllocError> {
    text.extend_from_slice(b"line ")?;
    push_number(text, line)?;
    text.extend_from_slice(b": ")?;
    if let Some(name) = &fault.name {
        push_quoted(text, name.get())?;
    }
    text.extend_from_slice(plan_reason(fault.kind))
}

/// What is wrong with the file, in one line without its end; empty if the fault is not one of the file. `seen` has the
/// header, the invalid record, and the line on which what is invalid begins.
pub fn fault_text(
    alloc: Global,
    fault: &FileFault<'_>,
    seen: &ReadRecords,
) -> Result<Vec<u8>, AllocError>
    ensures { IfOk result (λ text. IsFaultText (fields_of seen.now.header) seen.now.line (fields_of seen.now.last) fault.now text.items) }
{
    let mut text = Vec::new(alloc);
    match fault {
        FileFault::NoHeader => text.extend_from_slice(b"there is no header")?,
        FileFault::Plan(fault) => push_plan_fault(&mut text, seen.line, fault)?,
        FileFault::Records(plan, ImportFault::Record(fault)) => {
            let invalid = Invalid {
                line: seen.line,
                fault: fault.fault,
                fields: &seen.last,
            };
            push_record_message(&mut text, plan, &seen.header, &invalid)?;
        }
        FileFault::Records(_, _) | FileFault::Input(_) => {}
    }
    Ok(text)
}

// Appends a column as a header writes it, and the field that it comes from.
fn push_column(
    text: &mut Vec<u8>,
    column: &PlannedColumn,
    header: &[u8],
) -> Result<(), AllocError> {
    text.extend_from_slice(b"  ")?;
    text.extend_from_slice(column.name.bytes())?;
    match column.conversion {
        Conversion::Number(_) => text.extend_from_slice(b":int from ")?,
        Conversion::Text => text.extend_from_slice(b":text from ")?,
    }
    push_quoted(text, header)?;
    if let Conversion::Number(places) = column.conversion
        && places > 0
    {
        text.extend_from_slice(b", times 10^")?;
        push_count(text, places)?;
    }
    text.push(b'\n')?;
    Ok(())
}

/// What an import did: a line for each column, and the number of rows.
pub fn import_text(
    alloc: Global,
    plan: &Plan<'_>,
    rows: u64,
    seen: &ReadRecords,
) -> Result<Vec<u8>, AllocError> {
    let mut text = Vec::new(alloc);
    if plan.numbered {
        text.extend_from_slice(b"  row:int, 1 for the first row\n")?;
    }
    'columns: for column in plan.columns.get() {
        push_column(&mut text, column, field_at(&seen.header, column.place))?;
    }
    if plan.times.dates.is_some() && plan.times.unit == TimeUnit::Second {
        text.extend_from_slice(b"  times are seconds since 1970-01-01 00:00:00\n")?;
    }
    text.extend_from_slice(b"  ")?;
    text.extend_from_slice(Buffer::new().format(rows).as_bytes())?;
    text.extend_from_slice(if rows == 1 { b" row\n" } else { b" rows\n" })?;
    Ok(text)
}
