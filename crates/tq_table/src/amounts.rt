// Numbers as text, and amounts: whole numbers of their smallest unit, with digits after a point.

ghost use Rattle.std.specs.Prelude.{◌≡◌, ◌++◌, ◌/◌, ◌%◌, ◌^◌, OnOk, replicate};
ghost use Rattle.tq_table.specs.Amounts.{number_text, places_at, size_text, with_zeros};

use itoa::Buffer;
use std::alloc::AllocError;

/// Appends a byte this many times.
pub fn push_times(text: &mut Vec<u8>, byte: u8, times: usize) -> Result<(), AllocError>
    ensures { OnOk result (text.new.items ≡ text.old.items ++ replicate times byte) }
{
    'times: for _time in 0..times {
        text.push(byte)?;
    }
    Ok(())
}

// The whole part of a number of units of 10^-places, and the units after the point.
fn split(size: u128, places: u32) -> (u128, u128)
    ensures whole { result.0 ≡ size / 10 ^ places }
    ensures units { result.1 ≡ size % 10 ^ places }
{
    match 10_u128.checked_pow(places) {
        Some(unit) => (size / unit, size % unit),
        None => (0, size),
    }
}

// Appends a number with zeros in front, up to this many digits.
fn push_with_zeros(text: &mut Vec<u8>, places: u32, number: u128) -> Result<(), AllocError>
    ensures { OnOk result (text.new.items ≡ text.old.items ++ with_zeros places number) }
{
    let mut buffer = Buffer::new();
    let digits = buffer.format(number).as_bytes();
    push_times(text, b'0', (places as usize).saturating_sub(digits.len()))?;
    text.extend_from_slice(digits)
}

// Appends an amount without its sign.
fn push_size(text: &mut Vec<u8>, size: u128, places: u32) -> Result<(), AllocError>
    ensures { OnOk result (text.new.items ≡ text.old.items ++ size_text places size) }
{
    let (whole, units) = split(size, places);
    text.extend_from_slice(Buffer::new().format(whole).as_bytes())?;
    text.push(b'.')?;
    push_with_zeros(text, places, units)
}

/// Appends a number of units of 10^-places.
pub fn push_number(text: &mut Vec<u8>, number: i128, places: u32) -> Result<(), AllocError>
    ensures { OnOk result (text.new.items ≡ text.old.items ++ number_text places number) }
{
    if places == 0 {
        return text.extend_from_slice(Buffer::new().format(number).as_bytes());
    }
    if number < 0 {
        text.push(b'-')?;
    }
    push_size(text, number.unsigned_abs(), places)
}

// The number of digits after the point in a column.
pub fn places_at(places: &[u32], column: usize) -> u32
    ensures { result ≡ places_at places.now column }
{
    match places.get(column) {
        Some(places) => *places,
        None => 0,
    }
}
