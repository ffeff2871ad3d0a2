// Values and instants, as each format writes them.

ghost use Rattle.std.specs.Prelude.{◌≡◌, ◌≢◌, ◌<◌, ◌≤◌, ◌++◌, ◌∷◌, [], IsTrue, OnOk, length};
ghost use Rattle.std.specs.List.{flat_map};
ghost use Rattle.csv.specs.Writing.{escaped, field_text, needs_byte, needs_quotes};
ghost use Rattle.serde_json.specs.Data.{string};
ghost use Rattle.serde_json.specs.Written.{compact_text};
ghost use Rattle.tq_base.specs.Values.{value_ref};
ghost use Rattle.tq_draw.specs.Labels.{columns_in, escaped_text};
ghost use Rattle.tq_report.specs.Texts.{end_in, instant_in, is_dates, is_json, is_markup, last_of, markdown_byte, name_in, text_in, tsv_byte, value_in};
ghost use Rattle.tq_table.specs.Text.{answer_format};

use crate::format::Format;
use serde_json::Value as Json;
use std::alloc::{AllocError, Global};
use tq_base::{Bound, Form, Instant, ValueRef, put_instant};
use tq_draw::escaped_text;
use tq_table::push_number;

fn push_tsv_byte(text: &mut Vec<u8>, byte: u8) -> Result<(), AllocError>
    ensures { OnOk result (text.new.items ≡ text.old.items ++ tsv_byte byte) }
{
    match byte {
        b'\t' => text.extend_from_slice(b"\\t"),
        b'\n' => text.extend_from_slice(b"\\n"),
        b'\r' => text.extend_from_slice(b"\\r"),
        b'\\' => text.extend_from_slice(b"\\\\"),
        _ => Ok(text.push(byte)?),
    }
}

// Whether the byte may be markup inside a cell.
fn is_markup(byte: u8) -> bool
    ensures { result ≡ is_markup byte }
{
    byte == b'&'
        || byte == b'*'
        || byte == b'<'
        || byte == b'>'
        || byte == b'['
        || byte == b'\\'
        || byte == b']'
        || byte == b'_'
        || byte == b'`'
        || byte == b'|'
        || byte == b'~'
}

fn push_markdown_byte(text: &mut Vec<u8>, byte: u8) -> Result<(), AllocError>
    ensures { OnOk result (text.new.items ≡ text.old.items ++ markdown_byte byte) }
{
    match byte {
        b'\n' => text.extend_from_slice(b"<br>"),
        b'\r' => text.extend_from_slice(b"&#13;"),
        _ if is_markup(byte) => text.extend_from_slice(&[b'\\', byte]),
        _ => Ok(text.push(byte)?),
    }
}

fn push_tsv(text: &mut Vec<u8>, bytes: &[u8]) -> Result<(), AllocError>
    ensures { OnOk result (text.new.items ≡ text.old.items ++ flat_map tsv_byte bytes.now) }
{
    'bytes: for byte in bytes {
        push_tsv_byte(text, *byte)?;
    }
    Ok(())
}

fn push_markdown(text: &mut Vec<u8>, bytes: &[u8]) -> Result<(), AllocError>
    ensures { OnOk result (text.new.items ≡ text.old.items ++ flat_map markdown_byte bytes.now) }
{
    'bytes: for byte in bytes {
        push_markdown_byte(text, *byte)?;
    }
    Ok(())
}

// Whether a field with this byte is quoted.
fn needs_byte(byte: u8) -> bool
    ensures { result ≡ needs_byte answer_format byte }
{
    byte == b',' || byte == b'"' || byte == b'\r' || byte == b'\n'
}

fn needs_quotes(bytes: &[u8]) -> bool
    ensures { result ≡ needs_quotes answer_format bytes.now }
{
    bytes.iter().any(|byte| needs_byte(*byte))
}

// Appends a byte of a quoted field.
fn push_escaped_byte(text: &mut Vec<u8>, byte: u8) -> Result<(), AllocError>
    ensures { OnOk result (text.new.items ≡ text.old.items ++ escaped answer_format (byte ∷ [])) }
{
    if byte == b'"' {
        return text.extend_from_slice(b"\"\"");
    }
    text.push(byte)?;
    Ok(())
}

// Appends the bytes of a quoted field.
fn push_escaped(text: &mut Vec<u8>, bytes: &[u8]) -> Result<(), AllocError>
    ensures { OnOk result (text.new.items ≡ text.old.items ++ escaped answer_format bytes.now) }
{
    'bytes: for byte in bytes {
        push_escaped_byte(text, *byte)?;
    }
    Ok(())
}

/// Appends a field of CSV, quoted if necessary.
pub(crate) fn push_csv(text: &mut Vec<u8>, bytes: &[u8]) -> Result<(), AllocError>
    ensures { OnOk result (text.new.items ≡ text.old.items ++ field_text answer_format bytes.now) }
{
    if !needs_quotes(bytes) {
        return text.extend_from_slice(bytes);
    }
    text.push(b'"')?;
    push_escaped(text, bytes)?;
    text.push(b'"')?;
    Ok(())
}

fn is_plain_byte(byte: u8) -> bool
    ensures low { IsTrue result → 32 ≤ byte }
    ensures quote { IsTrue result → byte ≢ 34 }
    ensures backslash { IsTrue result → byte ≢ 92 }
{
    byte >= 32 && byte != b'"' && byte != b'\\'
}

// Whether JSON has the bytes as they are, in quotes.
fn is_plain(bytes: &[u8]) -> bool
    ensures { IsTrue result → compact_text (string bytes.now) ≡ 34 ∷ (bytes.now ++ 34 ∷ []) }
{
    'bytes: for byte in bytes {
        if !is_plain_byte(*byte) {
            return false;
        }
    }
    true
}

fn push_json(alloc: Global, text: &mut Vec<u8>, content: &str) -> Result<(), AllocError>
    ensures { OnOk result (text.new.items ≡ text.old.items ++ compact_text (string content.now)) }
{
    if is_plain(content.as_bytes()) {
        text.push(b'"')?;
        text.extend_from_slice(content.as_bytes())?;
        text.push(b'"')?;
        return Ok(());
    }
    let value = Json::String(String::from_str(alloc, content)?);
    text.extend_from_slice(value.to_string(alloc)?.as_bytes())
}

fn is_shown_byte(byte: u8) -> bool
    ensures low { IsTrue result → 32 ≤ byte }
    ensures high { IsTrue result → byte < 127 }
    ensures backslash { IsTrue result → byte ≢ 92 }
{
    byte >= 32 && byte < 127 && byte != b'\\'
}

/// Whether a picture shows the bytes as they are, in one column each.
pub(crate) fn is_shown(bytes: &[u8]) -> bool
    ensures shown { IsTrue result → escaped_text bytes.now ≡ bytes.now }
    ensures columns { IsTrue result → columns_in bytes.now ≡ length bytes.now }
{
    'bytes: for byte in bytes {
        if !is_shown_byte(*byte) {
            return false;
        }
    }
    true
}

// Appends the bytes as a picture shows them.
fn push_shown(alloc: Global, text: &mut Vec<u8>, bytes: &[u8]) -> Result<(), AllocError>
    ensures { OnOk result (text.new.items ≡ text.old.items ++ escaped_text bytes.now) }
{
    if is_shown(bytes) {
        text.extend_from_slice(bytes)
    } else {
        text.extend_from_slice(&escaped_text(alloc, bytes)?)
    }
}

/// Appends the name of a column in the format.
pub(crate) fn push_name(
    alloc: Global,
    text: &mut Vec<u8>,
    name: &[u8],
    format: Format,
) -> Result<(), AllocError>
    ensures { OnOk result (text.new.items ≡ text.old.items ++ name_in format name.now) }
{
    match format {
        Format::Aligned => push_shown(alloc, text, name),
        Format::Markdown => push_markdown(text, name),
        Format::Tsv => push_tsv(text, name),
        Format::Csv => push_csv(text, name),
        Format::Json | Format::JsonLines => text.extend_from_slice(name),
    }
}

fn is_json(format: Format) -> bool
    ensures { result ≡ is_json format }
{
    match format {
        Format::Json | Format::JsonLines => true,
        _ => false,
    }
}

// Appends a text in the format.
fn push_text(
    alloc: Global,
    text: &mut Vec<u8>,
    content: &str,
    format: Format,
) -> Result<(), AllocError>
    ensures { OnOk result (text.new.items ≡ text.old.items ++ text_in format content.now) }
{
    if is_json(format) {
        push_json(alloc, text, content)
    } else {
        push_name(alloc, text, content.as_bytes(), format)
    }
}

/// Appends a value of a column with this number of digits after the point.
pub(crate) fn push_value(
    alloc: Global,
    text: &mut Vec<u8>,
    value: ValueRef<'_>,
    format: Format,
    places: u32,
) -> Result<(), AllocError>
    ensures { OnOk result (text.new.items ≡ text.old.items ++ value_in format places (value_ref value.entry)) }
{
    match value {
        ValueRef::Int(number) => push_number(text, number, places),
        ValueRef::Text(content) => push_text(alloc, text, content, format),
    }
}

pub(crate) fn is_dates(form: Form) -> bool
    ensures { result ≡ is_dates form }
{
    match form {
        Form::Dates => true,
        Form::Numbers => false,
    }
}

/// Appends an instant in the format.
pub(crate) fn push_instant(
    text: &mut Vec<u8>,
    instant: Instant,
    format: Format,
    form: Form,
) -> Result<(), AllocError>
    ensures { OnOk result (text.new.items ≡ text.old.items ++ instant_in format form instant) }
{
    let mut digits = [0; 12];
    let len = put_instant(instant, form, &mut digits);
    if is_json(format) && is_dates(form) {
        text.push(b'"')?;
        text.extend_from_slice(&digits[..len])?;
        text.push(b'"')?;
        return Ok(());
    }
    text.extend_from_slice(&digits[..len])
}

// The instant, or the one before it if ends are included.
fn last_of(inclusive: bool, end: Instant) -> Instant
    ensures { result ≡ last_of inclusive end }
{
    if !inclusive {
        return end;
    }
    match Instant::new(end.number().saturating_sub(1)) {
        Some(last) => last,
        None => unreachable!(),
    }
}

/// Appends the end of a period in the format, or its last instant.
pub(crate) fn push_end(
    text: &mut Vec<u8>,
    end: Bound,
    format: Format,
    form: Form,
    inclusive: bool,
) -> Result<(), AllocError>
    ensures { OnOk result (text.new.items ≡ text.old.items ++ end_in format form inclusive end) }
{
    match Instant::new(end.number()) {
        Some(end) => push_instant(text, last_of(inclusive, end), format, form),
        None if is_json(format) => text.extend_from_slice(b"null"),
        None => text.extend_from_slice(b"forever"),
    }
}
