// Names and values as a picture shows them.

ghost use Rattle.std.specs.Prelude.{◌≡◌, ◌++◌, ◌<◌, IfOk, OnOk};
ghost use Rattle.std.specs.Fmt.{is_char_start, take_chars};
ghost use Rattle.tq_draw.specs.Labels.{columns_in, filled, hex_digit, label_of, narrow_front, escaped_after, escaped_lines, escaped_text, escaped_byte, shown_byte};
ghost use Rattle.tq_base.specs.Numbers.{instant_text};
ghost use Rattle.tq_table.specs.Text.{bound_field, value_field};

use itoa::Buffer;
use std::alloc::{AllocError, Global};
use std::str;
use tq_base::{Bound, Form, Instant, Value, ValueRef, put_instant};
use tq_shown::hidden_len;
use tq_table::push_times;
use unicode_width::UnicodeWidthStr;

/// The most columns of a label.
pub(crate) const LABEL: usize = 24;

fn hex_digit(digit: u8) -> u8
    requires { digit < 16 }
    ensures { result ≡ hex_digit digit }
{
    if digit < 10 {
        b'0' + digit
    } else {
        b'a' - 10 + digit
    }
}

// Appends a byte as it is shown; `hidden` bytes are left of a hidden character, with this one.
fn push_byte(text: &mut Vec<u8>, hidden: usize, byte: u8) -> Result<(), AllocError>
    ensures { OnOk result (text.new.items ≡ text.old.items ++ escaped_byte hidden byte) }
{
    if hidden > 0 {
        let digits = [b'\\', b'x', hex_digit(byte / 16), hex_digit(byte % 16)];
        return text.extend_from_slice(&digits);
    }
    if byte == b'\\' {
        return text.extend_from_slice(b"\\\\");
    }
    text.push(byte)?;
    Ok(())
}

// Appends a byte of a text, which may have lines; `hidden` bytes are left of a hidden character, with this one.
fn push_shown(
    text: &mut Vec<u8>,
    has_lines: bool,
    hidden: usize,
    byte: u8,
) -> Result<(), AllocError>
    ensures { OnOk result (text.new.items ≡ text.old.items ++ shown_byte has_lines hidden byte) }
{
    if has_lines && byte == b'\n' {
        text.push(byte)?;
        return Ok(());
    }
    push_byte(text, hidden, byte)
}

// The bytes of a text as they are shown; `has_lines` says whether line feeds stay.
fn escaped(alloc: Global, bytes: &[u8], has_lines: bool) -> Result<Vec<u8>, AllocError>
    ensures { IfOk result (λ text. text.items ≡ escaped_after has_lines 0 bytes.now) }
{
    let mut text = Vec::new(alloc);
    let mut hidden = 0;
    'bytes: for (place, byte) in bytes.iter().enumerate() {
        if hidden == 0 {
            hidden = hidden_len(&bytes[place..]);
        }
        push_shown(&mut text, has_lines, hidden, *byte)?;
        hidden = hidden.saturating_sub(1);
    }
    Ok(text)
}

/// The bytes of a text as a terminal may show them: each byte of a hidden character is `\x` and two hexadecimal digits, and
/// a backslash is doubled. `AllocError` if an allocation failed.
pub fn escaped_text(alloc: Global, bytes: &[u8]) -> Result<Vec<u8>, AllocError>
    ensures { IfOk result (λ text. text.items ≡ escaped_text bytes.now) }
{
    escaped(alloc, bytes, false)
}

/// A text with lines as a terminal may show it: line feeds stay.
pub(crate) fn escaped_lines(alloc: Global, bytes: &[u8]) -> Result<Vec<u8>, AllocError>
    ensures { IfOk result (λ text. text.items ≡ escaped_lines bytes.now) }
{
    escaped(alloc, bytes, true)
}

fn begins_char(byte: u8) -> bool
    ensures { result ≡ is_char_start byte }
{
    byte < 0x80 || byte >= 0xC0
}

/// The columns that the text takes in a terminal: 2 for a wide character, 0 for a combining one.
pub fn columns_in(text: &str) -> usize
    ensures { result ≡ columns_in text.now }
{
    text.width()
}

/// The columns that the bytes take in a terminal as UTF-8. If they are not UTF-8, each byte counts as one.
pub fn columns_in_bytes(bytes: &[u8]) -> usize
    ensures { result ≡ columns_in bytes.now }
{
    match str::from_utf8(bytes) {
        Ok(text) => columns_in(text),
        Err(_) => bytes.len(),
    }
}

// The first `chars` characters.
fn front(alloc: Global, bytes: &[u8], chars: usize) -> Result<Vec<u8>, AllocError>
    ensures { IfOk result (λ front. front.items ≡ take_chars chars bytes.now) }
{
    let mut front = Vec::new(alloc);
    let mut left = chars;
    'bytes: for byte in bytes {
        if begins_char(*byte) {
            if left == 0 {
                return Ok(front);
            }
            left -= 1;
        }
        front.push(*byte)?;
    }
    Ok(front)
}

// The longest front of at most 23 characters that takes fewer than 24 columns.
fn narrow_front(alloc: Global, bytes: &[u8]) -> Result<Vec<u8>, AllocError>
    ensures { IfOk result (λ front. front.items ≡ narrow_front 23 bytes.now) }
{
    let mut chars = LABEL - 1;
    'chars: while chars > 0 {
        let front = front(alloc, bytes, chars)?;
        if columns_in_bytes(&front) < LABEL {
            return Ok(front);
        }
        chars -= 1;
    }
    Ok(Vec::new(alloc))
}

/// The label of a text.
pub(crate) fn label(alloc: Global, bytes: &[u8]) -> Result<Vec<u8>, AllocError>
    ensures { IfOk result (λ label. label.items ≡ label_of bytes.now) }
{
    let text = escaped_text(alloc, bytes)?;
    if columns_in_bytes(&text) <= LABEL {
        return Ok(text);
    }
    let mut label = narrow_front(alloc, &text)?;
    label.push(b'~')?;
    Ok(label)
}

/// The label of a value.
pub(crate) fn value_label(alloc: Global, value: &Value) -> Result<Vec<u8>, AllocError>
    ensures { IfOk result (λ label. label.items ≡ label_of (value_field value.now)) }
{
    match value.as_ref() {
        ValueRef::Int(number) => label(alloc, Buffer::new().format(number).as_bytes()),
        ValueRef::Text(text) => label(alloc, text.as_bytes()),
    }
}

/// Appends an instant as answers write it.
pub(crate) fn push_instant(
    text: &mut Vec<u8>,
    instant: Instant,
    form: Form,
) -> Result<(), AllocError>
    ensures { OnOk result (text.new.items ≡ text.old.items ++ instant_text form instant) }
{
    let mut date = [0; 12];
    let len = put_instant(instant, form, &mut date);
    text.extend_from_slice(&date[..len])
}

/// Appends a bound as answers write it.
pub(crate) fn push_bound(text: &mut Vec<u8>, bound: Bound, form: Form) -> Result<(), AllocError>
    ensures { OnOk result (text.new.items ≡ text.old.items ++ bound_field form bound) }
{
    match Instant::new(bound.number()) {
        Some(instant) => push_instant(text, instant, form),
        None => text.extend_from_slice(b"forever"),
    }
}

/// Appends the label, filled with spaces up to the width.
pub(crate) fn push_filled(text: &mut Vec<u8>, label: &[u8], width: usize) -> Result<(), AllocError>
    ensures { OnOk result (text.new.items ≡ text.old.items ++ filled width label.now) }
{
    text.extend_from_slice(label)?;
    push_times(text, b' ', width.saturating_sub(columns_in_bytes(label)))
}
