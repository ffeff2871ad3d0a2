// The scale of time of a picture.

ghost use Rattle.std.specs.Prelude.{◌≡◌, ◌≤◌, ◌<◌};
ghost use Rattle.tq_draw.specs.Scales.{drawn_end, drawn_start, earlier, edge, first_of, greatest_end, counts_in_scale, later, least_start, room_of, scale_of, scale_over, IsScale};

use crate::shown_rows::ShownRows;
use tq_base::{FOREVER, Form, Period};

/// The least number of cells, if the scale has that many instants.
pub(crate) const MIN_CELLS: usize = 16;

/// The most cells of a scale.
pub(crate) const MAX_CELLS: usize = 10_000;

/// The instants from `first` up to, and not including, `last`, cut into `cells` cells.
#[derive(Clone, Copy, Debug)]
pub struct Scale {
    pub first: u64,
    pub last: u64,
    pub cells: usize,
}

impl Scale {
    /// The start of the cell, which is the end of the cell before it.
    pub(crate) fn edge(&self, cell: usize) -> u64
        requires scale { IsScale self.now }
        requires cell { cell ≤ self.now.cells }
        ensures value { result ≡ edge self.now cell }
        ensures within { result ≤ self.now.last }
    {
        self.first + cell as u64 * (self.last - self.first) / self.cells as u64
    }
}

// Whether the period counts in the scale.
fn counts_in_scale(form: Form, period: &Period) -> bool
    ensures { result ≡ counts_in_scale form period.now }
{
    match form {
        Form::Numbers => true,
        Form::Dates => !(period.start.number() == 0 && period.end.number() == FOREVER),
    }
}

// The start of the drawn part of the period.
fn drawn_start(form: Form, period: &Period) -> u64
    ensures value { result ≡ drawn_start form period.now }
    ensures within { result < 1000000000000 }
{
    match form {
        Form::Dates if period.start.number() == 0 => period.end.number() - 1,
        _ => period.start.number(),
    }
}

// The end of the drawn part of the period.
fn drawn_end(period: &Period) -> u64
    ensures value { result ≡ drawn_end period.now }
    ensures within { result ≤ 1000000000000 }
{
    if period.end.number() == FOREVER {
        period.start.number() + 1
    } else {
        period.end.number()
    }
}

// The lesser of the number and the period's drawn start, if it counts.
fn earlier(form: Form, least: u64, period: &Period) -> u64
    ensures value { result ≡ earlier form least period.now }
    ensures within { result ≤ least }
{
    if counts_in_scale(form, period) {
        least.min(drawn_start(form, period))
    } else {
        least
    }
}

// The greater of the number and the period's drawn end, if it counts.
fn later(form: Form, greatest: u64, period: &Period) -> u64
    requires { greatest ≤ 1000000000000 }
    ensures value { result ≡ later form greatest period.now }
    ensures within { result ≤ 1000000000000 }
{
    if counts_in_scale(form, period) {
        greatest.max(drawn_end(period))
    } else {
        greatest
    }
}

// The least drawn start of the rows.
fn least_start(form: Form, rows: &ShownRows<'_, '_>) -> u64
    ensures value { result ≡ least_start form rows.now }
    ensures within { result ≤ 1000000000000 }
{
    let mut least = FOREVER;
    'rows: for row in 0..rows.len() {
        least = earlier(form, least, &rows.period(row));
    }
    least
}

// The greatest drawn end of the rows.
fn greatest_end(form: Form, rows: &ShownRows<'_, '_>) -> u64
    ensures value { result ≡ greatest_end form rows.now }
    ensures within { result ≤ 1000000000000 }
{
    let mut greatest = 0;
    'rows: for row in 0..rows.len() {
        greatest = later(form, greatest, &rows.period(row));
    }
    greatest
}

/// The part of the width that remains after columns of these widths.
pub(crate) fn room_of(width: usize, widths: &[usize]) -> usize
    ensures { result ≡ room_of width widths.now }
{
    let mut room = width;
    'columns: for column in widths {
        room = room.saturating_sub(*column).saturating_sub(2);
    }
    room
}

// The first instant of the scale of the rows.
fn first_of(form: Form, rows: &ShownRows<'_, '_>) -> u64
    ensures value { result ≡ first_of form rows.now }
    ensures within { result < 1000000000000 }
{
    let least = least_start(form, rows);
    if least == FOREVER { 0 } else { least }
}

// The scale over these instants, with as many cells as there is room for.
fn scale_over(room: usize, first: u64, last: u64) -> Scale
    requires order { first < last }
    requires within { last ≤ 1000000000000 }
    ensures value { result ≡ scale_over room first last }
    ensures scale { IsScale result }
{
    let wanted = room.saturating_sub(1).min(MAX_CELLS).max(MIN_CELLS);
    Scale {
        first,
        last,
        cells: wanted.min((last - first) as usize),
    }
}

/// The scale of the window, or of the rows, with as many cells as there is room for.
pub(crate) fn scale_of(
    form: Form,
    room: usize,
    window: &Option<Period>,
    rows: &ShownRows<'_, '_>,
) -> Scale
    ensures value { result ≡ scale_of form room window.now rows.now }
    ensures scale { IsScale result }
{
    match window {
        Some(window) => scale_over(room, window.start.number(), window.end.number()),
        None => {
            let first = first_of(form, rows);
            scale_over(room, first, greatest_end(form, rows).max(first + 1))
        }
    }
}
