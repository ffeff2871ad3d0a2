// Hints below the message for the fault of a file: what to do about it.

ghost use Rattle.std.specs.Prelude.{◌≡◌, ◌≤◌, ◌++◌, OnOk, Some};
ghost use Rattle.csv.specs.Records.{fields_of};
ghost use Rattle.tq_diagnostics.specs.FileHints as spec;
ghost use Rattle.tq_diagnostics.specs.HeaderHints.{header_hint};
ghost use Rattle.tq_diagnostics.specs.Records.{record_of};

use crate::contents::{content_of, is_plain};
use crate::fields::last_fields;
use crate::header_hints::push_header_hint;
use crate::quotes::push_quote;
use crate::records::read_record;
use csv::ByteRecord;
use std::alloc::{AllocError, Global};
use tq_base::{Form, read_bound, read_instant};
use tq_event::LoadFaultKind;

// Whether two fields are one instant.
fn is_one_instant(form: Form, from: &[u8], to: &[u8]) -> bool
    ensures { result ≡ spec.is_one_instant form from.now to.now }
{
    let Some(start) = read_instant(from, form) else {
        return false;
    };
    let Some(end) = read_bound(to, form) else {
        return false;
    };
    start.number() == end.number()
}

// How the period of one instant is written.
fn one_instant_line(form: Form) -> &'static [u8]
    ensures { result.now ≡ spec.one_instant_line form }
{
    match form {
        Form::Numbers => {
            b"  the end is not included: a row of one instant ends at the next one; `tq import --inclusive` converts ends that are included\n"
        }
        Form::Dates => {
            b"  the end is not included: a row of one day ends on the next one; `tq import --inclusive` converts ends that are included\n"
        }
    }
}

// The message for a record whose last two fields are one instant, else nothing.
fn instant_line(form: Form, record: &ByteRecord) -> &'static [u8]
    ensures { result.now ≡ spec.instant_hint form (Some (fields_of record.now)) }
{
    let (from, to) = last_fields(record);
    if is_one_instant(form, from, to) {
        return one_instant_line(form);
    }
    b""
}

// Appends the message for the record with this number, from 1, if its last two fields are one instant.
fn push_instant_hint(
    alloc: Global,
    text: &mut Vec<u8>,
    form: Form,
    bytes: &[u8],
    number: u32,
) -> Result<(), AllocError>
    requires { 1 ≤ number }
    ensures { OnOk result (text.new.items ≡ text.old.items ++ spec.instant_hint form (record_of bytes.now number)) }
{
    let mut record = ByteRecord::new(alloc);
    if !read_record(alloc, bytes, number, &mut record)? {
        return Ok(());
    }
    text.extend_from_slice(instant_line(form, &record))
}

// Appends the hints for the file's header.
fn push_header_hints(alloc: Global, text: &mut Vec<u8>, bytes: &[u8]) -> Result<(), AllocError>
    ensures { OnOk result (text.new.items ≡ text.old.items ++ header_hint (record_of bytes.now 1)) }
{
    let mut header = ByteRecord::new(alloc);
    if !read_record(alloc, bytes, 1, &mut header)? {
        return Ok(());
    }
    push_header_hint(alloc, text, &header)
}

fn is_of_period(kind: LoadFaultKind) -> bool
    ensures { result ≡ spec.is_of_period kind }
{
    match kind {
        LoadFaultKind::BadHeader => false,
        LoadFaultKind::DuplicateName => false,
        LoadFaultKind::FieldCount => false,
        LoadFaultKind::BadInt => false,
        LoadFaultKind::TextTooLong => false,
        LoadFaultKind::BadPeriod => true,
        LoadFaultKind::NotUtf8 => false,
        LoadFaultKind::TooManyTables => false,
        LoadFaultKind::TooManyColumns => false,
        LoadFaultKind::TooManyEvents => false,
        LoadFaultKind::OutOfMemory => false,
    }
}

// Appends the hints for the header, if that is invalid.
fn push_header_hints_if(
    alloc: Global,
    text: &mut Vec<u8>,
    header: bool,
    bytes: &[u8],
) -> Result<(), AllocError>
    ensures { OnOk result (text.new.items ≡ text.old.items ++ spec.header_hint_if header bytes.now) }
{
    if header {
        return push_header_hints(alloc, text, bytes);
    }
    Ok(())
}

// Appends the hint for the period of the record with this number, if that is invalid.
fn push_instant_hint_if(
    alloc: Global,
    text: &mut Vec<u8>,
    kind: LoadFaultKind,
    form: Form,
    bytes: &[u8],
    number: u32,
) -> Result<(), AllocError>
    ensures { OnOk result (text.new.items ≡ text.old.items ++ spec.instant_hint_of kind form bytes.now number) }
{
    if is_of_period(kind) && number > 0 {
        return push_instant_hint(alloc, text, form, bytes, number);
    }
    Ok(())
}

// Appends where a quote is opened that is not closed, unless the fault is that of the file as a whole.
fn push_quote_if(text: &mut Vec<u8>, bytes: &[u8], number: u32) -> Result<(), AllocError>
    ensures { OnOk result (text.new.items ≡ text.old.items ++ spec.quote_hint_of bytes.now number) }
{
    if number > 0 && is_plain(content_of(bytes)) {
        return push_quote(text, bytes);
    }
    Ok(())
}

/// Appends the hints for a fault of this kind in the record with this number; `header` if the header is invalid.
pub(crate) fn push_file_hints(
    alloc: Global,
    text: &mut Vec<u8>,
    header: bool,
    kind: LoadFaultKind,
    form: Form,
    bytes: &[u8],
    number: u32,
) -> Result<(), AllocError>
    ensures { OnOk result (text.new.items ≡ text.old.items ++ spec.file_hints header kind form bytes.now number) }
{
    push_header_hints_if(alloc, text, header, bytes)?;
    push_instant_hint_if(alloc, text, kind, form, bytes, number)?;
    push_quote_if(text, bytes, number)
}
