// The periods of exported files.

ghost use Rattle.std.specs.Prelude.{◌≡◌, IfOk};
ghost use Rattle.tq_import.specs.Times.{after_last, bound_in, dated_in, end_of, form_of, instant_in, is_open, last_instant, unit_form};

use crate::clock::read_second;
use crate::dates::{read_day, without_midnight};
use crate::plan::{TimeFormat, TimeUnit};
use crate::scratch::Scratch;
use std::alloc::AllocError;
use tq_base::{Bound, FOREVER, Form, Instant, LAST_DAY, List, read_instant};

// How instants in the unit are written.
fn unit_form(unit: TimeUnit) -> Form
    ensures { result ≡ unit_form unit }
{
    match unit {
        TimeUnit::Day => Form::Dates,
        TimeUnit::Second => Form::Numbers,
    }
}

/// How the instants of the table file are written.
pub fn form_of(times: &TimeFormat) -> Form
    ensures { result ≡ form_of times.now }
{
    match &times.dates {
        None => Form::Numbers,
        Some(_) => unit_form(times.unit),
    }
}

// The last instant that can be written.
fn last_instant(form: Form) -> u64
    ensures { result ≡ last_instant form }
{
    match form {
        Form::Numbers => FOREVER - 1,
        Form::Dates => LAST_DAY,
    }
}

// The instant of a date in the format.
fn read_dated(
    unit: TimeUnit,
    format: &[u8],
    field: &[u8],
    scratch: &mut Scratch,
) -> Result<Option<Instant>, AllocError>
    ensures { IfOk result (λ instant. instant ≡ dated_in unit format.now field.now) }
{
    match unit {
        TimeUnit::Day => read_day(format, without_midnight(field), scratch),
        TimeUnit::Second => read_second(format, field, scratch),
    }
}

/// The instant of a field; `None` if it is not one in the format.
pub fn read_start(
    times: &TimeFormat,
    field: &[u8],
    scratch: &mut Scratch,
) -> Result<Option<Instant>, AllocError>
    ensures { IfOk result (λ instant. instant ≡ instant_in times.now field.now) }
{
    match &times.dates {
        None => Ok(read_instant(field, Form::Numbers)),
        Some(format) => read_dated(times.unit, format.get(), field, scratch),
    }
}

// Whether the field is a spelling of an open end.
fn is_open(spellings: &[List<u8>], field: &[u8]) -> bool
    ensures { result ≡ is_open spellings.now field.now }
{
    spellings.iter().any(|spelling| spelling.get() == field)
}

// The bound after the last instant of a period; `None` if it cannot be written.
fn after_last(form: Form, last: Instant) -> Option<Bound>
    ensures { result ≡ after_last form last }
{
    if last.number() < last_instant(form) {
        Bound::new(last.number() + 1)
    } else {
        None
    }
}

// The end that is written as an instant.
fn end_of(times: &TimeFormat, end: Instant) -> Option<Bound>
    ensures { result ≡ end_of times.now end }
{
    if times.inclusive {
        after_last(form_of(times), end)
    } else {
        Some(Bound::at(end))
    }
}

/// The bound of a field: `forever` for a spelling of an open end, else the end that its instant writes. `None` if it is
/// neither, or if the end cannot be written.
pub fn read_end(
    times: &TimeFormat,
    field: &[u8],
    scratch: &mut Scratch,
) -> Result<Option<Bound>, AllocError>
    ensures { IfOk result (λ bound. bound ≡ bound_in times.now field.now) }
{
    if is_open(times.open.get(), field) {
        return Ok(Bound::new(FOREVER));
    }
    match read_start(times, field, scratch)? {
        Some(end) => Ok(end_of(times, end)),
        None => Ok(None),
    }
}
