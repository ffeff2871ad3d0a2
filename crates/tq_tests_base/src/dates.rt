//! Instants as dates.

use crate::names::print_number;
use std::alloc::AllocError;
use std::fmt::Write;
use std::str;
use tq_base::{Form, Instant, put_instant, read_bound, read_instant};

/// Prints the day and the bound of the bytes in dates.
pub(crate) fn print_date(bytes: &[u8], out: &mut String) -> Result<(), AllocError> {
    let day = read_instant(bytes, Form::Dates);
    print_number(day.map(|day| day.number()), out)?;
    let bound = read_bound(bytes, Form::Dates);
    print_number(bound.map(|bound| bound.number()), out)
}

// Prints how the instant is written.
fn print_written(instant: Instant, form: Form, out: &mut String) -> Result<(), AllocError> {
    let mut bytes = [0; 12];
    let len = put_instant(instant, form, &mut bytes);
    let text = str::from_utf8(&bytes[..len]).unwrap_or("no text");
    writeln!(out, "{text}")
}

/// Prints how the instant with this number is written in dates, and in numbers.
pub(crate) fn print_day(number: u64, out: &mut String) -> Result<(), AllocError> {
    match Instant::new(number) {
        Some(instant) => {
            print_written(instant, Form::Dates, out)?;
            print_written(instant, Form::Numbers, out)
        }
        None => out.push_str("none\n"),
    }
}

// Whether the day prints as a date that is read as the day.
fn is_printed(number: u64) -> bool {
    let Some(day) = Instant::new(number) else {
        return false;
    };
    let mut bytes = [0; 12];
    let len = put_instant(day, Form::Dates, &mut bytes);
    len == 10 && read_instant(&bytes[..len], Form::Dates) == Some(day)
}

/// Prints how many of the first `many` days are read back from their dates.
pub(crate) fn print_days(many: u64, out: &mut String) -> Result<(), AllocError> {
    let printed = (0..many).filter(|number| is_printed(*number)).count();
    writeln!(out, "{printed}")
}
