// Dates in the formats of exported files.

ghost use Rattle.std.specs.Prelude.{◌≡◌, IfOk, IfSome, MatchOption, OnOk, false, true};
ghost use Rattle.tq_import.specs.Dates.{IsIsoOf, IsSeparator, day_in, digits_in, gathered, iso_text, more_digits, no_digits, without_midnight};

use crate::scratch::Scratch;
use std::alloc::AllocError;
use tq_base::{Form, Instant, read_instant};

// Adds the byte to the digits for which the mark of the format stands. Returns false if the mark is another byte.
fn push_digit(mark: u8, byte: u8, scratch: &mut Scratch) -> Result<bool, AllocError>
    ensures { IfOk result (λ found. MatchOption (more_digits mark byte (gathered scratch.old)) (found ≡ false)
        (λ digits. (found ≡ true) × (gathered scratch.new ≡ digits))) }
{
    match mark {
        b'd' => scratch.day.push(byte)?,
        b'm' => scratch.month.push(byte)?,
        b'y' => scratch.year.push(byte)?,
        _ => return Ok(mark == byte),
    }
    Ok(true)
}

// Gathers the digits of a date in the format. Returns false if the bytes are written in another form.
fn gather_digits(format: &[u8], bytes: &[u8], scratch: &mut Scratch) -> Result<bool, AllocError>
    ensures { IfOk result (λ found. MatchOption (digits_in format.now no_digits bytes.now) (found ≡ false)
        (λ digits. (found ≡ true) × (gathered scratch.new ≡ digits))) }
{
    scratch.year.clear();
    scratch.month.clear();
    scratch.day.clear();
    if format.len() != bytes.len() {
        return Ok(false);
    }
    'marks: for place in 0..format.len() {
        if !push_digit(format[place], bytes[place], scratch)? {
            return Ok(false);
        }
    }
    Ok(true)
}

// Writes the digits as `YYYY-MM-DD`.
fn write_iso(scratch: &mut Scratch) -> Result<(), AllocError>
    ensures { OnOk result (scratch.new.text.items ≡ iso_text (gathered scratch.old)) }
{
    scratch.text.clear();
    scratch.text.extend_from_slice(&scratch.year)?;
    scratch.text.push(b'-')?;
    scratch.text.extend_from_slice(&scratch.month)?;
    scratch.text.push(b'-')?;
    scratch.text.extend_from_slice(&scratch.day)
}

// Whether the mark of the format stands for itself, and the byte is it.
fn is_separator(mark: u8, byte: u8) -> bool
    ensures { IsSeparator mark byte result }
{
    mark == byte && mark != b'd' && mark != b'm' && mark != b'y'
}

// The date as `YYYY-MM-DD`, if the format is `dd.mm.yyyy`, with any separators.
fn day_first(format: &[u8], bytes: &[u8]) -> Option<[u8; 10]>
    ensures { IfSome result (IsIsoOf format.now bytes.now) }
{
    let [
        b'd',
        b'd',
        first,
        b'm',
        b'm',
        second,
        b'y',
        b'y',
        b'y',
        b'y',
    ] = format
    else {
        return None;
    };
    let [a, b, c, d, e, f, g, h, i, j] = bytes else {
        return None;
    };
    if !is_separator(*first, *c) || !is_separator(*second, *f) {
        return None;
    }
    Some([*g, *h, *i, *j, b'-', *d, *e, b'-', *a, *b])
}

// The date as `yyyy-mm-dd`, if the format is `yyyy-mm-dd` with any separators.
fn year_first(format: &[u8], bytes: &[u8]) -> Option<[u8; 10]>
    ensures { IfSome result (IsIsoOf format.now bytes.now) }
{
    let [
        b'y',
        b'y',
        b'y',
        b'y',
        first,
        b'm',
        b'm',
        second,
        b'd',
        b'd',
    ] = format
    else {
        return None;
    };
    let [a, b, c, d, e, f, g, h, i, j] = bytes else {
        return None;
    };
    if !is_separator(*first, *e) || !is_separator(*second, *h) {
        return None;
    }
    Some([*a, *b, *c, *d, b'-', *f, *g, b'-', *i, *j])
}

/// The day of a date that is written in the format, as `dd.mm.yyyy`; `None` if the bytes are not a date in this format. The
/// two usual formats need no memory.
pub fn read_day(
    format: &[u8],
    bytes: &[u8],
    scratch: &mut Scratch,
) -> Result<Option<Instant>, AllocError>
    ensures { IfOk result (λ day. day ≡ day_in format.now bytes.now) }
{
    if let Some(text) = day_first(format, bytes) {
        return Ok(read_instant(&text, Form::Dates));
    }
    if let Some(text) = year_first(format, bytes) {
        return Ok(read_instant(&text, Form::Dates));
    }
    if !gather_digits(format, bytes, scratch)? {
        return Ok(None);
    }
    write_iso(scratch)?;
    Ok(read_instant(&scratch.text, Form::Dates))
}

/// The bytes before a time of midnight; all bytes if they do not end in ` 00:00:00`.
pub fn without_midnight(bytes: &[u8]) -> &[u8]
    ensures { result.now ≡ without_midnight bytes.entry.now }
{
    let len = bytes.len();
    if len >= 9 && &bytes[len - 9..] == b" 00:00:00".as_slice() {
        return &bytes[..len - 9];
    }
    bytes
}

fn count_of(mark: u8, format: &[u8]) -> usize {
    format.iter().filter(|byte| **byte == mark).count()
}

/// Whether the bytes are a format of dates: `d` twice, `m` twice, `y` four times, and no other letter or digit.
pub fn is_date_format(format: &[u8]) -> bool {
    count_of(b'd', format) == 2
        && count_of(b'm', format) == 2
        && count_of(b'y', format) == 4
        && format.iter().all(|byte| matches!(byte, b'd' | b'm' | b'y')
            || !byte.is_ascii_alphanumeric())
}
