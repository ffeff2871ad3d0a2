// The table of the periods of the calendar.

ghost use Rattle.std.specs.Prelude.{◌≡◌, ◌≤◌, ◌<◌, ◌++◌, ◌||◌, All, IfOk, OnOk, length, min, not};
ghost use Rattle.std.specs.Str.{bytes_eq};
ghost use Rattle.tq_base.specs.declared.form.Form.TheVariants.{Dates};
ghost use Rattle.tq_base.specs.Numbers.{instant_text};
ghost use Rattle.tq_totals.specs.Calendar.{calendar_text, first_days, line, lines, period_end};

use crate::labels::put_label;
use crate::unit::Unit;
use itoa::Buffer;
use std::alloc::{AllocError, Global};
use tq_base::{Form, Instant, LAST_DAY, put_instant};

// Whether a period begins at a day with this label, given the label of the day before.
fn begins(is_first: bool, last: &[u8], label: &[u8]) -> bool
    ensures { result ≡ (is_first || not (bytes_eq last.now label.now)) }
{
    is_first || last != label
}

// The days at which periods begin, from `first` up to, and not including, `end`.
fn first_days(
    alloc: Global,
    unit: Unit,
    first: Instant,
    end: Instant,
) -> Result<Vec<Instant>, AllocError>
    requires { end ≤ 3652058 }
    ensures days { IfOk result (λ days. days.items ≡ first_days unit first end) }
{
    let mut days = Vec::new(alloc);
    let mut last = [0; 12];
    let mut last_len = 0;
    'days: for number in first.number()..end.number() {
        let day = Instant::new(number).unwrap();
        let mut label = [0; 12];
        let len = put_label(unit, day, &mut label);
        if begins(day == first, &last[..last_len], &label[..len]) {
            days.push(day)?;
        }
        last = label;
        last_len = len;
    }
    Ok(days)
}

// Appends the date of a day.
fn push_day(text: &mut Vec<u8>, day: Instant) -> Result<(), AllocError>
    ensures { OnOk result (text.new.items ≡ text.old.items ++ instant_text Dates day) }
{
    let mut date = [0; 12];
    let len = put_instant(day, Form::Dates, &mut date);
    text.extend_from_slice(&date[..len])
}

// Appends the line of a period.
fn push_line(
    text: &mut Vec<u8>,
    unit: Unit,
    number: usize,
    first: Instant,
    end: Instant,
) -> Result<(), AllocError>
    requires { first ≤ 3652058 }
    ensures { OnOk result (text.new.items ≡ text.old.items ++ line unit number first end) }
{
    let mut label = [0; 12];
    let len = put_label(unit, first, &mut label);
    text.extend_from_slice(Buffer::new().format(number).as_bytes())?;
    text.push(b',')?;
    text.extend_from_slice(&label[..len])?;
    text.push(b',')?;
    push_day(text, first)?;
    text.push(b',')?;
    push_day(text, end)?;
    text.push(b'\n')?;
    Ok(())
}

// The end of a period: the first day of the next one, or `end`.
fn period_end(days: &[Instant], end: Instant, period: usize) -> Instant
    requires { period < length days.now }
    ensures { result ≡ period_end days.now end period }
{
    match days.get(period + 1) {
        Some(next) => *next,
        None => end,
    }
}

// Appends a line for each period that begins at one of the days.
fn push_lines(
    text: &mut Vec<u8>,
    unit: Unit,
    days: &[Instant],
    end: Instant,
) -> Result<(), AllocError>
    requires { All (λ day. day ≤ 3652058) days.now }
    ensures { OnOk result (text.new.items ≡ text.old.items ++ lines unit days.now end) }
{
    'periods: for period in 0..days.len() {
        let until = period_end(days, end, period);
        push_line(text, unit, period + 1, days[period], until)?;
    }
    Ok(())
}

// The day, or the last one that has a date.
fn last_day(day: Instant) -> Instant
    ensures { result ≡ min day 3652058 }
{
    Instant::new(day.number().min(LAST_DAY)).unwrap()
}

/// A table file with the months, quarters or years that have a day from `start` up to, and not including, `end`. Each
/// has a number from 1 on, a label, and its days as a period, cut off at `start` and `end`. Days from 9999-12-31 on are
/// left out: the end of a period must be a date. `AllocError` if an allocation failed.
pub fn calendar(
    alloc: Global,
    unit: Unit,
    start: Instant,
    end: Instant,
) -> Result<Vec<u8>, AllocError>
    ensures { IfOk result (λ text. text.items ≡ calendar_text unit start end) }
{
    let end = last_day(end);
    let days = first_days(alloc, unit, start, end)?;
    let mut text = Vec::from_slice(alloc, b"k:int,label:text,from,to\n")?;
    push_lines(&mut text, unit, &days, end)?;
    Ok(text)
}
