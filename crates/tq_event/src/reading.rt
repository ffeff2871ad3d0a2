// The values and the period of a data record.

ghost use Rattle.std.specs.Prelude.{◌≡◌, ◌≢◌, ℕ, ◌≤◌, [], Err, IfErr, IfOk, IfSome, IsTrue, OnOk, Ok, length};
ghost use Rattle.std.specs.Str.{IsAscii, IsUtf8};
ghost use Rattle.csv.specs.Records.{fields_of};
ghost use Rattle.tq_base.specs.Contents.{Int};
ghost use Rattle.tq_event.specs.Projection.{projected_value, AreProjectedValues, IsProjectedEntry, IsProjectedValue};
ghost use Rattle.tq_event.specs.Loading.{entry_of, make_period, period_fields, period_of, value_of, values_after};

use crate::fault::LoadFaultKind;
use crate::projection::is_wanted;
use crate::records::field_at;
use csv::ByteRecord;
use std::alloc::Global;
use std::str;
use tq_base::{
    Bound, Column, Form, Instant, Kind, MAX_TEXT, Period, Value, read_bound, read_instant, read_int,
};

// Whether all bytes are ASCII. Fields are short, so every byte is read, without a branch to predict.
fn is_ascii(bytes: &[u8]) -> bool
    ensures { IsTrue result → IsAscii bytes.now }
{
    let mut ascii = true;
    'bytes: for byte in bytes {
        ascii &= *byte < 128;
    }
    ascii
}

// The bytes as a text, if they are UTF-8. Most texts are ASCII, which is faster to check.
fn text_in(bytes: &[u8]) -> Option<&str>
    ensures text { IfSome result (λ text. (text.now ≡ bytes.entry.now) × IsUtf8 bytes.entry.now) }
    ensures none { result ≡ None → ¬ (IsUtf8 bytes.entry.now) }
{
    if is_ascii(bytes) {
        // ASCII is UTF-8.
        return Some(unsafe { str::from_utf8_unchecked(bytes) });
    }
    str::from_utf8(bytes).ok()
}

// The text of a field; the empty text if the field is not wanted.
fn read_text(alloc: Global, wanted: bool, field: &[u8]) -> Result<Value, LoadFaultKind>
    ensures ok { IfOk result (IsProjectedValue Kind.Text wanted field.now) }
    ensures fault { IfErr result (λ fault. fault ≢ LoadFaultKind.OutOfMemory → value_of Kind.Text field.now ≡ Err fault) }
{
    let Some(text) = text_in(field) else {
        return Err(LoadFaultKind::NotUtf8);
    };
    if field.len() > MAX_TEXT {
        return Err(LoadFaultKind::TextTooLong);
    }
    if !wanted {
        return Ok(Value::text(alloc, "")?);
    }
    Ok(Value::text(alloc, text)?)
}

// The number if it is wanted, else 0.
fn projected_int(wanted: bool, number: i64) -> Value
    ensures { result ≡ projected_value wanted (Int number) }
{
    Value::int(if wanted { number } else { 0 })
}

// The value of a field, blank if the field is not wanted.
fn read_value(alloc: Global, kind: Kind, wanted: bool, field: &[u8]) -> Result<Value, LoadFaultKind>
    ensures ok { IfOk result (IsProjectedValue kind wanted field.now) }
    ensures fault { IfErr result (λ fault. fault ≢ LoadFaultKind.OutOfMemory → value_of kind field.now ≡ Err fault) }
{
    match kind {
        Kind::Int => match read_int(field) {
            Some(number) => Ok(projected_int(wanted, number)),
            None => Err(LoadFaultKind::BadInt),
        },
        Kind::Text => read_text(alloc, wanted, field),
    }
}

/// Replaces the list by the values of the first fields of the record, one for each column. A column that is not wanted
/// has the number 0 or the empty text.
pub fn read_fields(
    alloc: Global,
    columns: &[Column],
    wanted: &[bool],
    record: &ByteRecord,
    values: &mut Vec<Value>,
) -> Result<(), LoadFaultKind>
    requires { length columns.now ≤ length (fields_of record.now) }
    ensures ok { OnOk result (AreProjectedValues columns.now wanted.now (fields_of record.now) values.new.items) }
    ensures width { OnOk result (length values.new.items ≡ length columns.now) }
    ensures fault { IfErr result (λ fault. fault ≢ LoadFaultKind.OutOfMemory
        → values_after [] columns.now (fields_of record.now) ≡ Err fault) }
{
    values.clear();
    values.reserve(columns.len())?;
    'columns: for (place, column) in columns.iter().enumerate() {
        let field = field_at(record, place);
        let value = read_value(alloc, column.kind, is_wanted(wanted, place), field)?;
        values.push_reserved(value);
    }
    Ok(())
}

// The period from the instant to the bound; `BadPeriod` if one is missing or they are in the wrong order.
fn make_period(from: Option<Instant>, to: Option<Bound>) -> Result<Period, LoadFaultKind>
    ensures ok { IfOk result (λ period. make_period from to ≡ Ok (period.start, period.end)) }
    ensures fault { IfErr result (λ fault. make_period from to ≡ Err fault) }
{
    match (from, to) {
        (Some(from), Some(to)) => match Period::new(from, to) {
            Some(period) => Ok(period),
            None => Err(LoadFaultKind::BadPeriod),
        },
        (Some(_), None) => Err(LoadFaultKind::BadPeriod),
        (None, _) => Err(LoadFaultKind::BadPeriod),
    }
}

// The period in the last two fields.
fn read_period(record: &ByteRecord, form: Form) -> Result<Period, LoadFaultKind>
    requires { 2 ≤ length (fields_of record.now) }
    ensures ok { IfOk result (λ period. period_of form (period_fields (fields_of record.now)) ≡ Ok (period.start, period.end)) }
    ensures fault { IfErr result (λ fault. period_of form (period_fields (fields_of record.now)) ≡ Err fault) }
{
    let width = record.len();
    let from = field_at(record, width - 2);
    let to = field_at(record, width - 1);
    make_period(read_instant(from, form), read_bound(to, form))
}

/// Reads a record of a table with these columns: returns its period and replaces the list by its values. Every field is
/// checked; a column that is not wanted has the number 0 or the empty text. Columns after the end of `wanted` are
/// wanted.
pub fn read_entry(
    alloc: Global,
    columns: &[Column],
    wanted: &[bool],
    record: &ByteRecord,
    values: &mut Vec<Value>,
    form: Form,
) -> Result<Period, LoadFaultKind>
    ensures ok { IfOk result (IsProjectedEntry form columns.now wanted.now (fields_of record.now) values.new.items) }
    ensures width { OnOk result (length values.new.items ≡ length columns.now) }
    ensures fault { (table : ℕ) → IfErr result (λ fault. fault ≢ LoadFaultKind.OutOfMemory
        → entry_of form table columns.now (fields_of record.now) ≡ Err fault) }
{
    let width = record.len();
    if width < 2 || width - 2 != columns.len() {
        return Err(LoadFaultKind::FieldCount);
    }
    read_fields(alloc, columns, wanted, record, values)?;
    read_period(record, form)
}
