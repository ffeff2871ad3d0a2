// First days of months, quarters, years and longer units.

ghost use Rattle.std.specs.Prelude.{◌≡◌, ◌≢◌, ℕ, ◌≤◌, ◌<◌, ◌+◌, ◌-◌, ◌*◌, false, IfOk, slice_index, take};
ghost use Rattle.tq_draw.specs.Calendar.{first_days, is_first, is_first_date, unit_of};

use std::alloc::{AllocError, Global};
use tq_base::{Form, Instant, LAST_DAY, put_instant};

/// A unit of the calendar, on whose first days marks are.
#[derive(Clone, Copy, PartialEq, Eq, Debug)]
pub enum Unit {
    Day,
    Month,
    Quarter,
    Year,
    Decade,
    Century,
    Millennium,
}

// Whether a period of the unit begins at the date.
fn is_first_date(unit: Unit, date: &[u8]) -> bool
    ensures { result ≡ is_first_date unit date.now }
{
    match unit {
        Unit::Day => true,
        Unit::Month => date.ends_with(b"-01"),
        Unit::Quarter => {
            date.ends_with(b"-01-01")
                || date.ends_with(b"-04-01")
                || date.ends_with(b"-07-01")
                || date.ends_with(b"-10-01")
        }
        Unit::Year => date.ends_with(b"-01-01"),
        Unit::Decade => date.ends_with(b"0-01-01"),
        Unit::Century => date.ends_with(b"00-01-01"),
        Unit::Millennium => date.ends_with(b"000-01-01"),
    }
}

// The day of the month of a date.
fn day_in(date: &[u8; 12]) -> u64
    ensures value { result ≡ 10 * (slice_index date.now 8 - 48) + (slice_index date.now 9 - 48) }
{
    let tens = u64::from(date[8].saturating_sub(b'0'));
    10 * tens + u64::from(date[9].saturating_sub(b'0'))
}

// How many days after a date are in its month for sure, up to the 28th. A unit of days has first days among them.
fn days_ahead(unit: Unit, date: &[u8; 12]) -> u64
    ensures days { unit ≡ Unit.Day → result ≡ 0 }
    ensures others { unit ≢ Unit.Day → result ≡ 28 - (10 * (slice_index date.now 8 - 48) + (slice_index date.now 9 - 48)) }
{
    if unit == Unit::Day {
        0
    } else {
        28_u64.saturating_sub(day_in(date))
    }
}

// Whether a period of the unit begins at the day, and how many days after it are no first days.
fn look_at(unit: Unit, day: u64) -> (bool, u64)
    requires { day ≤ 3652058 }
    ensures first { result.0 ≡ is_first unit day }
    ensures ahead { (other : ℕ) → day < other → other ≤ day + result.1 → is_first unit other ≡ false }
    ensures few { result.1 ≤ 28 }
{
    match Instant::new(day) {
        Some(instant) => {
            let mut date = [0; 12];
            let len = put_instant(instant, Form::Dates, &mut date);
            let ahead = days_ahead(unit, &date);
            (is_first_date(unit, &date[..len]), ahead)
        }
        None => unreachable!(),
    }
}

// The first days of the unit from `first` up to, and not including, `last`; no more than `most` of them.
fn first_days(
    alloc: Global,
    unit: Unit,
    first: u64,
    last: u64,
    most: usize,
) -> Result<Vec<u64>, AllocError>
    ensures { IfOk result (λ days. days.items ≡ take most (first_days unit first last)) }
{
    let end = last.min(LAST_DAY + 1);
    let mut days = Vec::new(alloc);
    let mut day = first;
    'days: while day < end {
        let (is_first, ahead) = look_at(unit, day);
        if is_first {
            if days.len() == most {
                return Ok(days);
            }
            days.push(day)?;
        }
        day = (day + 1 + ahead).min(end);
    }
    Ok(days)
}

/// The first days from `first` up to, and not including, `last`, of the finest unit that has no more than `most` there.
pub(crate) fn days_to_mark(
    alloc: Global,
    first: u64,
    last: u64,
    most: usize,
) -> Result<Vec<u64>, AllocError>
    requires { most < 1000000 }
    ensures { IfOk result (λ days. days.items ≡ first_days (unit_of most first last) first last) }
{
    let units = [
        Unit::Day,
        Unit::Month,
        Unit::Quarter,
        Unit::Year,
        Unit::Decade,
        Unit::Century,
    ];
    'units: for unit in &units {
        let days = first_days(alloc, *unit, first, last, most + 1)?;
        if days.len() <= most {
            return Ok(days);
        }
    }
    let days = first_days(alloc, Unit::Millennium, first, last, LAST_DAY as usize + 1)?;
    Ok(days)
}
