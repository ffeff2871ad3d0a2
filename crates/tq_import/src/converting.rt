// The record of a table file that a record becomes.

ghost use Rattle.std.specs.Prelude.{◌≡◌, ◌≢◌, ◌++◌, ◌∷◌, ◌≤◌, [], ℕ, Err, IfErr, IfOk, List, OnOk, Ok};
ghost use Rattle.csv.specs.Records.{fields_of};
ghost use Rattle.tq_import.specs.Records.{HasFields, convert, import_record, ordered, period_in, row_number, text_field, values_after};
ghost use Rattle.std.specs.Fmt.{signed_decimal};
ghost use Rattle.std.specs.Str.{is_utf8};
ghost use Rattle.tq_base.specs.Numbers.{instant_text};
ghost use Rattle.tq_table.specs.Text.{bound_field};
ghost use Rattle.tq_import.specs.Times.{form_of};

use crate::amounts::read_units;
use crate::fault::{RecordFault, RecordFaultKind};
use crate::plan::{Conversion, NumberFormat, Plan, PlannedColumn};
use crate::reading::field_at;
use crate::scratch::Scratch;
use crate::times::{form_of, read_end, read_start};
use csv::ByteRecord;
use itoa::Buffer;
use std::alloc::AllocError;
use std::str;
use tq_base::{Bound, Form, Instant, MAX_TEXT, Period, put_instant};

/// Appends a field to the record.
pub fn push_field(fields: &mut ByteRecord, field: &[u8]) -> Result<(), AllocError>
    ensures { (before : List (List ℕ)) → HasFields fields.old before → OnOk result (HasFields fields.new (before ++ field.now ∷ [])) }
{
    fields.push_field(field)?;
    Ok(())
}

// Appends a number in decimal.
fn push_number(fields: &mut ByteRecord, number: i64) -> Result<(), AllocError>
    ensures { (before : List (List ℕ)) → HasFields fields.old before → OnOk result (HasFields fields.new (before ++ signed_decimal number ∷ [])) }
{
    push_field(fields, Buffer::new().format(number).as_bytes())?;
    Ok(())
}

fn is_utf8(field: &[u8]) -> bool
    ensures { result ≡ is_utf8 field.now }
{
    match str::from_utf8(field) {
        Ok(_) => true,
        Err(_) => false,
    }
}

// Fails if the field is not a valid text.
fn check_text(field: &[u8]) -> Result<(), RecordFaultKind>
    ensures ok { OnOk result (text_field field.now ≡ Ok field.now) }
    ensures fault { IfErr result (λ kind. text_field field.now ≡ Err kind) }
{
    if !is_utf8(field) {
        return Err(RecordFaultKind::NotUtf8);
    }
    if field.len() > MAX_TEXT {
        return Err(RecordFaultKind::TextTooLong);
    }
    Ok(())
}

// Appends the converted value.
fn push_converted(
    format: NumberFormat,
    conversion: Conversion,
    field: &[u8],
    fields: &mut ByteRecord,
) -> Result<(), RecordFaultKind>
    ensures ok { (before : List (List ℕ)) → HasFields fields.old before
        → OnOk result ((value : List ℕ) × (convert format conversion field.now ≡ Ok value) × HasFields fields.new (before ++ value ∷ [])) }
    ensures fault { IfErr result (λ kind. kind ≢ RecordFaultKind.OutOfMemory → convert format conversion field.now ≡ Err kind) }
{
    match conversion {
        Conversion::Number(places) => {
            let Some(units) = read_units(format, places, field) else {
                return Err(RecordFaultKind::BadNumber);
            };
            push_number(fields, units)?;
            Ok(())
        }
        Conversion::Text => {
            if let Err(kind) = check_text(field) {
                return Err(kind);
            }
            push_field(fields, field)?;
            Ok(())
        }
    }
}

// Appends the values of the columns.
fn push_values(
    format: NumberFormat,
    columns: &[PlannedColumn],
    record: &ByteRecord,
    fields: &mut ByteRecord,
) -> Result<(), RecordFault>
    ensures ok { (before : List (List ℕ)) → HasFields fields.old before
        → OnOk result ((values : List (List ℕ)) × (values_after before format columns.now (fields_of record.now) ≡ Ok values) × HasFields fields.new values) }
    ensures fault { (before : List (List ℕ)) → HasFields fields.old before
        → IfErr result (λ fault. fault.kind ≢ RecordFaultKind.OutOfMemory → values_after before format columns.now (fields_of record.now) ≡ Err fault) }
{
    'each: for column in columns {
        let field = field_at(record, column.place);
        if let Err(kind) = push_converted(format, column.conversion, field, fields) {
            return Err(RecordFault {
                kind,
                place: column.place,
            });
        }
    }
    Ok(())
}

// The period from the instant to the bound.
fn ordered(from: Instant, to: Bound) -> Result<Period, RecordFaultKind>
    ensures ok { IfOk result (λ period. ordered from to ≡ Ok (period.start, period.end)) }
    ensures fault { IfErr result (λ kind. ordered from to ≡ Err kind) }
{
    match Period::new(from, to) {
        Some(period) => Ok(period),
        None => Err(RecordFaultKind::EmptyPeriod),
    }
}

// The period of a record.
fn read_period(
    plan: &Plan<'_>,
    record: &ByteRecord,
    scratch: &mut Scratch,
) -> Result<Period, RecordFault>
    ensures ok { IfOk result (λ period. period_in plan.now (fields_of record.now) ≡ Ok (period.start, period.end)) }
    ensures fault { IfErr result (λ fault. fault.kind ≢ RecordFaultKind.OutOfMemory → period_in plan.now (fields_of record.now) ≡ Err fault) }
{
    let Some(from) = read_start(plan.times, field_at(record, plan.from), scratch)? else {
        return Err(RecordFault {
            kind: RecordFaultKind::BadFrom,
            place: plan.from,
        });
    };
    let Some(to) = read_end(plan.times, field_at(record, plan.to), scratch)? else {
        return Err(RecordFault {
            kind: RecordFaultKind::BadTo,
            place: plan.to,
        });
    };
    match ordered(from, to) {
        Ok(period) => Ok(period),
        Err(kind) => Err(RecordFault {
            kind,
            place: plan.to,
        }),
    }
}

// Appends an instant as the form writes it.
fn push_instant(fields: &mut ByteRecord, instant: Instant, form: Form) -> Result<(), AllocError>
    ensures { (before : List (List ℕ)) → HasFields fields.old before → OnOk result (HasFields fields.new (before ++ instant_text form instant ∷ [])) }
{
    let mut text = [0; 12];
    let len = put_instant(instant, form, &mut text);
    push_field(fields, &text[..len])?;
    Ok(())
}

// Appends a bound as the form writes it.
fn push_bound(fields: &mut ByteRecord, bound: Bound, form: Form) -> Result<(), AllocError>
    ensures { (before : List (List ℕ)) → HasFields fields.old before → OnOk result (HasFields fields.new (before ++ bound_field form bound ∷ [])) }
{
    match Instant::new(bound.number()) {
        Some(instant) => {
            push_instant(fields, instant, form)?;
            Ok(())
        }
        None => {
            push_field(fields, b"forever")?;
            Ok(())
        }
    }
}

// Replaces the fields by the number of the row, if rows are numbered.
fn begin_fields(fields: &mut ByteRecord, numbered: bool, number: u64) -> Result<(), AllocError>
    requires { 1 ≤ number }
    ensures { OnOk result (HasFields fields.new (row_number numbered number)) }
{
    fields.clear();
    if numbered {
        push_field(fields, Buffer::new().format(number - 1).as_bytes())?;
        return Ok(());
    }
    Ok(())
}

/// Replaces `fields` by those of the table file for the record with this number: its values, then its period. Returns the
/// first fault, or `OutOfMemory` if an allocation failed.
pub fn import_record(
    plan: &Plan<'_>,
    number: u64,
    record: &ByteRecord,
    fields: &mut ByteRecord,
    scratch: &mut Scratch,
) -> Result<(), RecordFault>
    requires { 1 ≤ number }
    ensures ok { OnOk result (import_record plan.now number (fields_of record.now) ≡ Ok (fields_of fields.new)) }
    ensures fault { IfErr result (λ fault. fault.kind ≢ RecordFaultKind.OutOfMemory → import_record plan.now number (fields_of record.now) ≡ Err fault) }
{
    if record.len() != plan.width {
        return Err(RecordFault {
            kind: RecordFaultKind::FieldCount,
            place: 0,
        });
    }
    begin_fields(fields, plan.numbered, number)?;
    if let Err(fault) = push_values(plan.numbers, plan.columns.get(), record, fields) {
        return Err(fault);
    }
    let period = match read_period(plan, record, scratch) {
        Ok(period) => period,
        Err(fault) => return Err(fault),
    };
    let form = form_of(plan.times);
    push_instant(fields, period.start, form)?;
    push_bound(fields, period.end, form)?;
    Ok(())
}
