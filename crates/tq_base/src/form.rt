//! The two forms in which instants are written: numbers and dates.

ghost use Rattle.std.specs.Prelude.{◌≡◌, ◌≤◌, ◌<◌, decimal, drop, take};
ghost use Rattle.tq_base.specs.Numbers.{bound_of, instant_of, instant_text};

use crate::dates::{LAST_DAY, put_date, read_date};
use crate::name::is_same_word;
use crate::number::read_natural;
use crate::period::{Bound, FOREVER, Instant};
use itoa::Buffer;

/// How files, statements and answers write an instant.
#[derive(Clone, Copy, PartialEq, Eq, Debug)]
pub enum Form {
    /// In decimal: `738944`.
    Numbers,
    /// As the date of the day with that number: `2024-02-29`. Day 0 is 0001-01-01.
    Dates,
}

/// Reads an instant: a number of at most 999,999,999,999, or a date of the years 1 to 9999. `None` if it is neither.
pub fn read_instant(bytes: &[u8], form: Form) -> Option<Instant>
    ensures { result ≡ instant_of form bytes.now }
{
    match form {
        Form::Numbers => Instant::new(read_natural(bytes, FOREVER - 1)?),
        Form::Dates => read_date(bytes),
    }
}

/// Reads an instant, or `forever` in any ASCII case. `None` if the bytes are neither.
pub fn read_bound(bytes: &[u8], form: Form) -> Option<Bound>
    ensures { result ≡ bound_of form bytes.now }
{
    if is_same_word(b"forever", bytes) {
        return Bound::new(FOREVER);
    }
    let instant = read_instant(bytes, form)?;
    Bound::new(instant.number())
}

fn put_number(number: u64, into: &mut [u8; 12]) -> usize
    requires { number < 1000000000000 }
    ensures text { take result into.new ≡ decimal number }
    ensures rest { drop result into.new ≡ drop result into.old }
    ensures in_range { result ≤ 12 }
{
    let mut buffer = Buffer::new();
    let text = buffer.format(number).as_bytes();
    into[..text.len()].copy_from_slice(text);
    text.len()
}

/// Writes the instant to the front of the array and returns the number of bytes written; the rest of the array stays as
/// it was. In dates, an instant after 9999-12-31 is written as its number.
pub fn put_instant(instant: Instant, form: Form, into: &mut [u8; 12]) -> usize
    ensures text { take result into.new ≡ instant_text form instant }
    ensures rest { drop result into.new ≡ drop result into.old }
    ensures in_range { result ≤ 12 }
{
    match form {
        Form::Dates if instant.number() <= LAST_DAY => put_date(instant.number() as u32, into),
        _ => put_number(instant.number(), into),
    }
}
