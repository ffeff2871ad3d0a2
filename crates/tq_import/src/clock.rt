// Times of days, as seconds since 1970-01-01 00:00:00.

ghost use Rattle.std.specs.Prelude.{◌≡◌, ◌<◌, ◌≤◌, IfOk, IfSome, true};
ghost use Rattle.tq_base.specs.declared.dates.TheConstants.{LAST_DAY};
ghost use Rattle.tq_import.specs.Clock.{clock_in, has_time_form, second_in, seconds_of, since_1970, time_in};

use crate::dates::read_day;
use crate::scratch::Scratch;
use std::alloc::AllocError;
use tq_base::{Instant, read_natural};

// The day of 1970-01-01.
const FIRST_DAY: u64 = 719_162;

// Whether the bytes have the form of a time after a date, whatever their digits.
fn has_time_form(bytes: &[u8]) -> bool
    ensures { result ≡ has_time_form bytes.now }
{
    (bytes.len() == 6 || bytes.len() == 9 && bytes[6] == b':')
        && (bytes[0] == b' ' || bytes[0] == b'T')
        && bytes[3] == b':'
}

// The seconds after the minute; 0 if the time ends with the minute.
fn seconds_of(bytes: &[u8]) -> Option<u64>
    ensures { result ≡ seconds_of bytes.now }
{
    if bytes.len() == 9 {
        read_natural(&bytes[7..9], 59)
    } else {
        Some(0)
    }
}

// The seconds since midnight of a time.
fn read_clock(bytes: &[u8]) -> Option<u64>
    requires { has_time_form bytes.now ≡ true }
    ensures value { result ≡ clock_in bytes.now }
    ensures small { IfSome result (λ time. time < 86400) }
{
    let hours = read_natural(&bytes[1..3], 23)?;
    let minutes = read_natural(&bytes[4..6], 59)?;
    let seconds = seconds_of(bytes)?;
    Some(hours * 3600 + minutes * 60 + seconds)
}

// The seconds since midnight of the bytes after a date: a time, or none for midnight.
fn read_time(bytes: &[u8]) -> Option<u64>
    ensures value { result ≡ time_in bytes.now }
    ensures small { IfSome result (λ time. time < 86400) }
{
    if bytes.is_empty() {
        return Some(0);
    }
    if has_time_form(bytes) {
        read_clock(bytes)
    } else {
        None
    }
}

// The seconds from 1970-01-01 00:00:00 to a time of a day; `None` before 1970.
fn since_1970(day: Instant, time: u64) -> Option<Instant>
    requires early { day ≤ LAST_DAY }
    requires small { time < 86400 }
    ensures { result ≡ since_1970 day time }
{
    if day.number() < FIRST_DAY {
        return None;
    }
    Instant::new((day.number() - FIRST_DAY) * 86_400 + time)
}

/// The seconds from 1970-01-01 00:00:00 to a date in the format, as `dd.mm.yyyy`, perhaps with a time; `None` if the bytes
/// are not one from 1970 on.
pub fn read_second(
    format: &[u8],
    bytes: &[u8],
    scratch: &mut Scratch,
) -> Result<Option<Instant>, AllocError>
    ensures { IfOk result (λ instant. instant ≡ second_in format.now bytes.now) }
{
    if bytes.len() < format.len() {
        return Ok(None);
    }
    let Some(day) = read_day(format, &bytes[..format.len()], scratch)? else {
        return Ok(None);
    };
    let Some(time) = read_time(&bytes[format.len()..]) else {
        return Ok(None);
    };
    Ok(since_1970(day, time))
}
