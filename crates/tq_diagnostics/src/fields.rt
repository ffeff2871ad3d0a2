// Messages about the fields of a record.

ghost use Rattle.std.specs.Prelude.{◌≡◌, ◌+◌, ◌-◌, ◌<◌, ◌≤◌, ◌++◌, OnOk, Some, codes, decimal, length, slice_get};
ghost use Rattle.csv.specs.Records.{fields_of};
ghost use Rattle.tq_diagnostics.specs.Fields as spec;

use csv::ByteRecord;
use itoa::Buffer;
use std::alloc::AllocError;
use std::str;
use tq_base::{Column, Form, Kind, MAX_TEXT, read_bound, read_instant, read_int};
use tq_event::LoadFaultKind;
use tq_shown::push_printable;

// The most bytes of a value that are shown.
const MAX_SHOWN: usize = 60;

/// Appends a value, or the front of a long one.
pub(crate) fn push_value(text: &mut Vec<u8>, value: &[u8]) -> Result<(), AllocError>
    ensures { OnOk result (text.new.items ≡ text.old.items ++ spec.shown_value value.now) }
{
    push_printable(text, &value[..value.len().min(MAX_SHOWN)])?;
    if value.len() > MAX_SHOWN {
        text.extend_from_slice(b"..")?;
    }
    Ok(())
}

// Appends a value and its problem, or that the value is empty.
fn push_description(text: &mut Vec<u8>, value: &[u8], problem: &[u8]) -> Result<(), AllocError>
    ensures { OnOk result (text.new.items ≡ text.old.items ++ spec.value_description value.now problem.now) }
{
    if value.len() == 0 {
        return text.extend_from_slice(b" is empty");
    }
    text.extend_from_slice(b" `")?;
    push_value(text, value)?;
    text.extend_from_slice(b"` ")?;
    text.extend_from_slice(problem)
}

// Appends a column's name, the field and its problem, and what is expected.
fn push_continuations(
    text: &mut Vec<u8>,
    name: &[u8],
    value: &[u8],
    problem: &[u8],
    wanted: &[u8],
) -> Result<(), AllocError>
    ensures { OnOk result (text.new.items ≡ text.old.items ++ spec.reported name.now value.now problem.now wanted.now) }
{
    text.extend_from_slice(name)?;
    push_description(text, value, problem)?;
    text.extend_from_slice(b": ")?;
    text.extend_from_slice(wanted)
}

// The fault of a field as a text, if it has one.
fn text_fault(field: &[u8]) -> Option<LoadFaultKind>
    ensures { result ≡ spec.value_fault Kind.Text field.now }
{
    let Ok(_text) = str::from_utf8(field) else {
        return Some(LoadFaultKind::NotUtf8);
    };
    if field.len() > MAX_TEXT {
        return Some(LoadFaultKind::TextTooLong);
    }
    None
}

// The fault of a field as the value of a column, if it has one.
fn value_fault(kind: Kind, field: &[u8]) -> Option<LoadFaultKind>
    ensures { result ≡ spec.value_fault kind field.now }
{
    match kind {
        Kind::Int => match read_int(field) {
            Some(_) => None,
            None => Some(LoadFaultKind::BadInt),
        },
        Kind::Text => text_fault(field),
    }
}

// The problem of a value with a fault of this kind.
fn value_problem(kind: LoadFaultKind) -> &'static [u8]
    ensures { result.now ≡ spec.value_problem kind }
{
    match kind {
        LoadFaultKind::BadHeader => b"",
        LoadFaultKind::DuplicateName => b"",
        LoadFaultKind::FieldCount => b"",
        LoadFaultKind::BadInt => b"is not an int",
        LoadFaultKind::TextTooLong => b"is too long",
        LoadFaultKind::BadPeriod => b"",
        LoadFaultKind::NotUtf8 => b"is not valid UTF-8",
        LoadFaultKind::TooManyTables => b"",
        LoadFaultKind::TooManyColumns => b"",
        LoadFaultKind::TooManyEvents => b"",
        LoadFaultKind::OutOfMemory => b"",
    }
}

// What is expected instead of a value with a fault of this kind.
fn expected_value(kind: LoadFaultKind) -> &'static [u8]
    ensures { result.now ≡ spec.expected_value kind }
{
    match kind {
        LoadFaultKind::BadHeader => b"",
        LoadFaultKind::DuplicateName => b"",
        LoadFaultKind::FieldCount => b"",
        LoadFaultKind::BadInt => {
            b"write digits, or - and digits, from -9223372036854775808 to 9223372036854775807"
        }
        LoadFaultKind::TextTooLong => b"a text has at most 1,000 bytes",
        LoadFaultKind::BadPeriod => b"",
        LoadFaultKind::NotUtf8 => b"save the file as UTF-8",
        LoadFaultKind::TooManyTables => b"",
        LoadFaultKind::TooManyColumns => b"",
        LoadFaultKind::TooManyEvents => b"",
        LoadFaultKind::OutOfMemory => b"",
    }
}

/// The field with this number, from 0.
pub(crate) fn field_at(record: &ByteRecord, place: usize) -> &[u8]
    requires { place < length (fields_of record.now) }
    ensures { slice_get (fields_of record.entry.now) place ≡ Some result.now }
{
    match record.get(place) {
        Some(field) => field,
        None => unreachable!(),
    }
}

// The field with this number, or nothing if there is none.
fn field_or_nothing(record: &ByteRecord, place: usize) -> &[u8]
    ensures { result.now ≡ spec.field_of (slice_get (fields_of record.entry.now) place) }
{
    match record.get(place) {
        Some(field) => field,
        None => b"",
    }
}

/// The last two fields; nothing for one that is not there.
pub(crate) fn last_fields(record: &ByteRecord) -> (&[u8], &[u8])
    ensures from { result.0.now ≡ spec.field_of (slice_get (fields_of record.entry.now) (length (fields_of record.entry.now) - 2)) }
    ensures to { result.1.now ≡ spec.field_of (slice_get (fields_of record.entry.now) (length (fields_of record.entry.now) - 1)) }
{
    let count = record.len();
    (
        field_or_nothing(record, count.saturating_sub(2)),
        field_or_nothing(record, count.saturating_sub(1)),
    )
}

/// Appends the first field that is not a valid value of its column, if there is one.
pub(crate) fn push_value_detail(
    text: &mut Vec<u8>,
    columns: &[Column],
    record: &ByteRecord,
) -> Result<(), AllocError>
    requires { length columns.now ≤ length (fields_of record.now) }
    ensures { OnOk result (text.new.items ≡ text.old.items ++ spec.value_detail columns.now (fields_of record.now)) }
{
    'columns: for (place, column) in columns.iter().enumerate() {
        let field = field_at(record, place);
        if let Some(kind) = value_fault(column.kind, field) {
            let name = column.name.bytes();
            push_continuations(text, name, field, value_problem(kind), expected_value(kind))?;
            return Ok(());
        }
    }
    Ok(())
}

// Whether a field is a date although instants are numbers.
fn is_strange_date(form: Form, field: &[u8]) -> bool
    ensures { result ≡ spec.is_strange_date form field.now }
{
    match form {
        Form::Numbers => read_instant(field, Form::Dates).is_some(),
        Form::Dates => false,
    }
}

fn instant_problem(form: Form) -> &'static [u8]
    ensures { result.now ≡ spec.instant_problem form }
{
    match form {
        Form::Numbers => b"is not a valid instant",
        Form::Dates => b"is not a valid date",
    }
}

fn expected_instant(form: Form) -> &'static [u8]
    ensures { result.now ≡ spec.expected_instant form }
{
    match form {
        Form::Numbers => b"write digits, from 0 to 999999999999",
        Form::Dates => b"write a day of the calendar, YYYY-MM-DD",
    }
}

// Appends a field that is not a valid instant; `also` is what else is expected.
fn push_instant(
    text: &mut Vec<u8>,
    form: Form,
    name: &[u8],
    field: &[u8],
    also: &[u8],
) -> Result<(), AllocError>
    ensures { OnOk result (text.new.items ≡ text.old.items ++ spec.instant_report form name.now field.now also.now) }
{
    if is_strange_date(form, field) {
        return push_continuations(
            text,
            name,
            field,
            b"is a date",
            b"use --dates for files with dates",
        );
    }
    push_continuations(
        text,
        name,
        field,
        instant_problem(form),
        expected_instant(form),
    )?;
    text.extend_from_slice(also)
}

// Appends an end that is not a valid bound.
fn push_bound(text: &mut Vec<u8>, form: Form, to: &[u8]) -> Result<(), AllocError>
    ensures { OnOk result (text.new.items ≡ text.old.items ++ spec.bound_report form to.now) }
{
    if to.len() == 0 {
        return push_continuations(text, b"to", to, b"", b"write forever for an open end");
    }
    push_instant(text, form, b"to", to, b", or forever")
}

// Appends that `from` is not before `to`.
fn push_order(text: &mut Vec<u8>, from: &[u8], to: &[u8]) -> Result<(), AllocError>
    ensures { OnOk result (text.new.items ≡ text.old.items ++ codes "from `" ++ spec.shown_value from.now ++ codes "` is not before to `" ++ spec.shown_value to.now ++ codes "`") }
{
    text.extend_from_slice(b"from `")?;
    push_value(text, from)?;
    text.extend_from_slice(b"` is not before to `")?;
    push_value(text, to)?;
    text.extend_from_slice(b"`")
}

// Appends what is wrong with two fields as a period, if anything.
fn push_period_detail(
    text: &mut Vec<u8>,
    form: Form,
    from: &[u8],
    to: &[u8],
) -> Result<(), AllocError>
    ensures { OnOk result (text.new.items ≡ text.old.items ++ spec.period_detail form from.now to.now) }
{
    let Some(start) = read_instant(from, form) else {
        return push_instant(text, form, b"from", from, b"");
    };
    let Some(end) = read_bound(to, form) else {
        return push_bound(text, form, to);
    };
    if start.number() < end.number() {
        return Ok(());
    }
    push_order(text, from, to)
}

/// Appends a number in decimal.
pub(crate) fn push_number(text: &mut Vec<u8>, number: usize) -> Result<(), AllocError>
    ensures { OnOk result (text.new.items ≡ text.old.items ++ decimal number) }
{
    text.extend_from_slice(Buffer::new().format(number).as_bytes())
}

// Appends the numbers of fields of the record and of the header, which differ.
fn push_counts(text: &mut Vec<u8>, has: usize, wanted: usize) -> Result<(), AllocError>
    ensures { OnOk result (text.new.items ≡ text.old.items ++ spec.counts_detail has wanted) }
{
    text.extend_from_slice(b"the header has ")?;
    push_number(text, wanted)?;
    text.extend_from_slice(b" fields, but this record has ")?;
    push_number(text, has)
}

// Appends what is wrong with a record that has two more fields than there are columns.
fn push_fields_detail(
    text: &mut Vec<u8>,
    form: Form,
    columns: &[Column],
    record: &ByteRecord,
) -> Result<(), AllocError>
    requires { length (fields_of record.now) ≡ length columns.now + 2 }
    ensures { OnOk result (text.new.items ≡ text.old.items ++ spec.fields_detail form columns.now (fields_of record.now)) }
{
    let begin = text.len();
    push_value_detail(text, columns, record)?;
    if text.len() > begin {
        return Ok(());
    }
    let from = field_at(record, columns.len());
    let to = field_at(record, columns.len() + 1);
    push_period_detail(text, form, from, to)
}

/// Appends what is wrong with a record by these columns.
pub(crate) fn push_record_detail(
    text: &mut Vec<u8>,
    form: Form,
    columns: &[Column],
    record: &ByteRecord,
) -> Result<(), AllocError>
    ensures { OnOk result (text.new.items ≡ text.old.items ++ spec.record_detail form columns.now (fields_of record.now)) }
{
    let wanted = columns.len() + 2;
    if record.len() != wanted {
        return push_counts(text, record.len(), wanted);
    }
    push_fields_detail(text, form, columns, record)
}
