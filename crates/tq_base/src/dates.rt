//! Dates of the proleptic Gregorian calendar, as `YYYY-MM-DD`.

ghost use Rattle.std.specs.Prelude.{◌≡◌, ◌≤◌, ◌+◌, ◌%◌, ◌+ℤ◌, drop, pos, take};
ghost use Rattle.jiff_core.specs.Date.{epoch_day};
ghost use Rattle.tq_base.specs.Dates.{CivilDate, date_of, date_text, day_of};
ghost use Rattle.tq_base.specs.Numbers.{instant_of};
ghost use Rattle.tq_base.specs.declared.form.Form.TheVariants.{Dates};

use crate::number::read_natural;
use crate::period::Instant;
use jiff::ToSpan;
use jiff::civil::{Date, date};

/// The day of 9999-12-31, the last day with a date.
pub const LAST_DAY: u64 = 3_652_058;

// The days from -9999-01-01, where the count of `jiff` begins, to 0001-01-01.
const DAYS_BEFORE: u64 = 3_652_425;

/// The day of a date; `None` if the bytes are not a date of the years 1 to 9999.
pub fn read_date(bytes: &[u8]) -> Option<Instant>
    ensures { result ≡ instant_of Dates bytes.now }
{
    if bytes.len() != 10 || bytes[4] != b'-' || bytes[7] != b'-' {
        return None;
    }
    let year = read_natural(&bytes[..4], 9999)?;
    let month = read_natural(&bytes[5..7], 12)?;
    let day = read_natural(&bytes[8..10], 31)?;
    instant_on(year, month, day)
}

fn first_date() -> Date
    ensures { epoch_day result +ℤ pos 4_371_587 ≡ pos 0 }
{
    date(-9999, 1, 1)
}

// The days from the first date of `jiff`, -9999-01-01, to this one.
fn days_from_first(date: Date) -> u64
    ensures { epoch_day date +ℤ pos 4_371_587 ≡ pos result }
{
    let first = first_date();
    date.duration_since(first).as_hours().unsigned_abs() / 24
}

// The date that many days after the first date of `jiff`.
fn date_after_first(days: u32) -> Date
    requires { days ≤ 7_304_483 }
    ensures { epoch_day result +ℤ pos 4_371_587 ≡ pos days }
{
    let first = first_date();
    match first.checked_add(i64::from(days).days()) {
        Ok(date) => date,
        Err(_) => unreachable!(),
    }
}

// The day of the date with these parts; `None` if the calendar has no such date.
fn instant_on(year: u64, month: u64, day: u64) -> Option<Instant>
    requires year_in { year ≤ 9999 }
    requires month_in { month ≤ 12 }
    requires day_in { day ≤ 31 }
    ensures { let date : CivilDate = record { year = year; month = month; day = day } in result ≡ day_of date }
{
    if year == 0 {
        return None;
    }
    match Date::new(year as i16, month as i8, day as i8) {
        Ok(date) => Instant::new(days_from_first(date) - DAYS_BEFORE),
        Err(_) => None,
    }
}

// The year, the month and the day of the month of a day.
fn parts_of(day: u32) -> (u32, u32, u32)
    requires { day ≤ 3652058 }
    ensures year { result.0 ≡ (date_of day).year }
    ensures month { result.1 ≡ (date_of day).month }
    ensures day { result.2 ≡ (date_of day).day }
{
    let date = date_after_first(day + DAYS_BEFORE as u32);
    (
        u32::from(date.year().unsigned_abs()),
        u32::from(date.month().unsigned_abs()),
        u32::from(date.day().unsigned_abs()),
    )
}

fn digit(number: u32) -> u8
    ensures { result ≡ 48 + number % 10 }
{
    b'0' + (number % 10) as u8
}

/// Writes the date of a day to the front of the array and returns 10, the number of bytes written.
pub fn put_date(day: u32, into: &mut [u8; 12]) -> usize
    requires { day ≤ 3652058 }
    ensures text { take result into.new ≡ date_text (date_of day) }
    ensures rest { drop result into.new ≡ drop result into.old }
    ensures ten { result ≡ 10 }
{
    let (year, month, day) = parts_of(day);
    let text = [
        digit(year / 1000),
        digit(year / 100),
        digit(year / 10),
        digit(year),
        b'-',
        digit(month / 10),
        digit(month),
        b'-',
        digit(day / 10),
        digit(day),
    ];
    into[..10].copy_from_slice(&text);
    10
}
