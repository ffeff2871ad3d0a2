// Numbers as exported files write them.

ghost use Rattle.std.specs.Prelude.{◌≡◌, ◌==◌, ◌<◌, ◌≤◌, IfSome, length, position};
ghost use Rattle.std.specs.List.{list_any};
ghost use Rattle.std.specs.Option.{option_and_then};
ghost use Rattle.tq_base.specs.Numbers.{natural_up_to};
ghost use Rattle.tq_import.specs.Amounts.{are_parts, begins_with, fraction_part, is_grouped, is_marked, is_placed, is_negative, unit_digits, units_in, unsigned, whole_digits, whole_part};
ghost use Rattle.tq_import.specs.Digits.{natural_after};

use crate::digits::{add_digits, add_unmarked, add_zeros};
use crate::plan::NumberFormat;

// Whether the bytes begin with a `-`, and the number after it.
fn split_sign(bytes: &[u8]) -> (bool, &[u8])
    ensures sign { result.0 ≡ is_negative bytes.entry.now }
    ensures number { result.1.now ≡ unsigned bytes.entry.now }
{
    match bytes {
        [b'-', number @ ..] => (true, number),
        _ => (false, bytes),
    }
}

fn point_place(point: u8, number: &[u8]) -> Option<usize>
    ensures value { result ≡ position (λ b. b == point) number.now }
    ensures within { IfSome result (λ place. place < length number.now) }
{
    number.iter().position(|byte| *byte == point)
}

// The bytes before the point, and those after it.
fn split_at_point(point: u8, number: &[u8]) -> (&[u8], &[u8])
    ensures whole { result.0.now ≡ whole_part point number.entry.now }
    ensures fraction { result.1.now ≡ fraction_part point number.entry.now }
{
    match point_place(point, number) {
        Some(place) => (&number[..place], &number[place + 1..]),
        None => (number, b""),
    }
}

fn begins_with(mark: u8, whole: &[u8]) -> bool
    ensures { result ≡ begins_with mark whole.now }
{
    match whole {
        [first, ..] => *first == mark,
        [] => false,
    }
}

// Whether a byte is the separator exactly if it must be: before each group of three digits. `more` bytes come after it.
fn is_placed(mark: u8, byte: u8, more: usize) -> bool
    ensures { result ≡ is_placed mark byte more }
{
    if more % 4 == 3 {
        byte == mark
    } else {
        byte != mark
    }
}

fn is_marked(mark: u8, whole: &[u8]) -> bool
    ensures { result ≡ is_marked mark whole.now }
{
    let mut rest = whole;
    'bytes: while let [byte, more @ ..] = rest {
        if !is_placed(mark, *byte, more.len()) {
            return false;
        }
        rest = more;
    }
    true
}

fn has_mark(mark: u8, whole: &[u8]) -> bool
    ensures { result ≡ list_any (λ b. b == mark) whole.now }
{
    whole.iter().any(|byte| *byte == mark)
}

fn is_grouped(mark: u8, whole: &[u8]) -> bool
    ensures { result ≡ is_grouped mark whole.now }
{
    !has_mark(mark, whole) || (!begins_with(mark, whole) && is_marked(mark, whole))
}

// The number that the digits before the point write, without separators of thousands. `None` if these are at wrong places,
// if a byte is not a digit, or if the number is above the limit.
fn read_whole(thousands: Option<u8>, whole: &[u8], limit: u64) -> Option<u64>
    ensures value { result ≡ option_and_then (natural_after limit 0) (whole_digits thousands whole.now) }
    ensures small { IfSome result (λ size. size ≤ limit) }
{
    match thousands {
        None => add_digits(0, whole, limit),
        Some(mark) if is_grouped(mark, whole) => add_unmarked(0, mark, whole, limit),
        Some(_) => None,
    }
}

// Whether there is something before the point and, if there is a point, 1 to `places` bytes after it.
fn are_parts(places: usize, len: usize, whole: &[u8], fraction: &[u8]) -> bool
    ensures { result ≡ are_parts places len whole.now fraction.now }
{
    !whole.is_empty() && whole.len() + 1 != len && fraction.len() <= places
}

// The number of units of 10^-places without its sign. `None` if the number has another form or is above the limit.
fn read_size(format: NumberFormat, places: usize, number: &[u8], limit: u64) -> Option<u64>
    ensures value { result ≡ option_and_then (natural_up_to limit) (unit_digits format places number.now) }
    ensures small { IfSome result (λ size. size ≤ limit) }
{
    let (whole, fraction) = split_at_point(format.point, number);
    if !are_parts(places, number.len(), whole, fraction) {
        return None;
    }
    let size = read_whole(format.thousands, whole, limit)?;
    let units = add_digits(size, fraction, limit)?;
    add_zeros(units, places.saturating_sub(fraction.len()), limit)
}

/// The number of units of 10^-places that the bytes write. `None` if the bytes are not a number with at most `places` digits
/// after the point, or its units do not fit 64 signed bits.
pub fn read_units(format: NumberFormat, places: usize, bytes: &[u8]) -> Option<i64>
    ensures { result ≡ units_in format places bytes.now }
{
    let (negative, number) = split_sign(bytes);
    if negative {
        let size = read_size(format, places, number, 1 << 63)?;
        Some((0 - i128::from(size)) as i64)
    } else {
        let size = read_size(format, places, number, (1 << 63) - 1)?;
        Some(size as i64)
    }
}

/// The number of digits after the point.
pub fn places_in(format: NumberFormat, bytes: &[u8]) -> usize
    ensures { result ≡ length (fraction_part format.point (unsigned bytes.now)) }
{
    let (_, number) = split_sign(bytes);
    let (_, fraction) = split_at_point(format.point, number);
    fraction.len()
}
