// The marks above the bars, and their instants.

ghost use Rattle.std.specs.Prelude.{◌≡◌, ◌≤◌, ◌<◌, ◌++◌, All, IfOk, OnOk, map};
ghost use Rattle.std.specs.List.{range_with_len};
ghost use Rattle.tq_draw.specs.Marks.{AreWithin, cell_of, day_marks, end_text, is_written, labels_from, mark_label, marks_of, marks_on, most_marks, regular_mark, ruler_from, spaced};
ghost use Rattle.tq_draw.specs.Scales.{IsScale};

use crate::calendar::days_to_mark;
use crate::scale::Scale;
use std::alloc::{AllocError, Global};
use tq_base::{Form, Instant, LAST_DAY, put_instant};
use tq_table::push_times;

/// A mark on a cell, with the instant whose label is above it.
#[derive(Clone, Copy, Debug)]
pub struct Tick {
    pub cell: usize,
    pub instant: u64,
}

// Whether the bound can be written in the form: in dates it must have a date.
fn is_written(bound: u64, form: Form) -> bool
    ensures { result ≡ is_written form bound }
{
    match form {
        Form::Numbers => true,
        Form::Dates => bound <= LAST_DAY,
    }
}

// A bound as answers write it; empty if it cannot be written in the form.
fn mark_label(alloc: Global, bound: u64, form: Form) -> Result<Vec<u8>, AllocError>
    requires { bound ≤ 1000000000000 }
    ensures { IfOk result (λ label. label.items ≡ mark_label form bound) }
{
    if !is_written(bound, form) {
        return Ok(Vec::new(alloc));
    }
    match Instant::new(bound) {
        Some(instant) => {
            let mut text = [0; 12];
            let len = put_instant(instant, form, &mut text);
            Vec::from_slice(alloc, &text[..len])
        }
        None => Vec::from_slice(alloc, b"forever"),
    }
}

// The number of marks for this number of cells, in numbers.
fn marks_on(cells: usize) -> usize
    ensures { result ≡ marks_on cells }
{
    (cells.saturating_sub(8) / 16).max(1)
}

// The number of marks that there is room for, in dates.
fn most_marks(cells: usize) -> usize
    ensures { result ≡ most_marks cells }
{
    (cells.saturating_sub(9) / 12).max(1)
}

// The cell that holds the instant.
fn cell_of(scale: &Scale, instant: u64) -> usize
    requires scale { IsScale scale.now }
    requires from { scale.now.first ≤ instant }
    requires before { instant < scale.now.last }
    ensures value { result ≡ cell_of scale.now instant }
    ensures within { result < scale.now.cells }
{
    let span = scale.last - scale.first;
    (((instant - scale.first + 1) * scale.cells as u64 - 1) / span) as usize
}

// The marks on each 16th cell.
fn regular_marks(alloc: Global, scale: &Scale) -> Result<Vec<Tick>, AllocError>
    requires { IsScale scale.now }
    ensures value { IfOk result (λ marks. marks.items ≡ map (regular_mark scale.now) (range_with_len 0 (marks_on scale.now.cells))) }
    ensures within { IfOk result (λ marks. AreWithin marks.items) }
{
    let mut marks = Vec::new(alloc);
    'marks: for mark in 0..marks_on(scale.cells) {
        let cell = mark * 16;
        marks.push(Tick {
            cell,
            instant: scale.edge(cell),
        })?;
    }
    Ok(marks)
}

// The marks of these days, from left to right.
fn spaced(alloc: Global, scale: &Scale, days: &[u64]) -> Result<Vec<Tick>, AllocError>
    requires scale { IsScale scale.now }
    requires days { All (λ day. (scale.now.first ≤ day) × (day < scale.now.last)) days.now }
    ensures value { IfOk result (λ marks. marks.items ≡ spaced scale.now 0 days.now) }
    ensures within { IfOk result (λ marks. AreWithin marks.items) }
{
    let mut marks = Vec::new(alloc);
    let mut from = 0;
    'days: for day in days {
        let cell = cell_of(scale, *day);
        if from <= cell && cell + 21 <= scale.cells {
            marks.push(Tick {
                cell,
                instant: *day,
            })?;
            from = cell + 12;
        }
    }
    Ok(marks)
}

// The marks on first days.
fn day_marks(alloc: Global, scale: &Scale) -> Result<Vec<Tick>, AllocError>
    requires { IsScale scale.now }
    ensures value { IfOk result (λ marks. marks.items ≡ day_marks scale.now) }
    ensures within { IfOk result (λ marks. AreWithin marks.items) }
{
    let most = most_marks(scale.cells);
    let days = days_to_mark(alloc, scale.first, scale.last, most)?;
    let marks = spaced(alloc, scale, &days)?;
    Ok(marks)
}

// The marks in dates: those on first days, or one on the first cell.
#[tactic(auto, unfolding(crate::specs::Marks::marks_of))]
fn dated_marks(alloc: Global, scale: &Scale) -> Result<Vec<Tick>, AllocError>
    requires { IsScale scale.now }
    ensures value { IfOk result (λ marks. marks.items ≡ marks_of Form.Dates scale.now) }
    ensures within { IfOk result (λ marks. AreWithin marks.items) }
{
    let mut marks = day_marks(alloc, scale)?;
    if marks.len() == 0 {
        marks.push(Tick {
            cell: 0,
            instant: scale.first,
        })?;
    }
    Ok(marks)
}

/// The marks of the scale, from left to right.
#[tactic(auto, unfolding(crate::specs::Marks::marks_of))]
pub(crate) fn marks_of(alloc: Global, form: Form, scale: &Scale) -> Result<Vec<Tick>, AllocError>
    requires { IsScale scale.now }
    ensures value { IfOk result (λ marks. marks.items ≡ marks_of form scale.now) }
    ensures within { IfOk result (λ marks. AreWithin marks.items) }
{
    match form {
        Form::Numbers => regular_marks(alloc, scale),
        Form::Dates => dated_marks(alloc, scale),
    }
}

// Appends the last bound, where the first `column` columns are written.
fn push_end(
    alloc: Global,
    text: &mut Vec<u8>,
    scale: &Scale,
    form: Form,
    column: usize,
) -> Result<(), AllocError>
    requires { IsScale scale.now }
    ensures { OnOk result (text.new.items ≡ text.old.items ++ end_text form scale.now column) }
{
    let label = mark_label(alloc, scale.last, form)?;
    let spaces = (scale.cells + 1)
        .saturating_sub(column)
        .saturating_sub(label.len());
    push_times(text, b' ', spaces.max(1))?;
    text.extend_from_slice(&label)
}

/// Appends the instants of the marks, and the last bound.
pub(crate) fn push_marks(
    alloc: Global,
    text: &mut Vec<u8>,
    scale: &Scale,
    marks: &[Tick],
    form: Form,
) -> Result<(), AllocError>
    requires scale { IsScale scale.now }
    requires within { AreWithin marks.now }
    ensures { OnOk result (text.new.items ≡ text.old.items ++ labels_from form scale.now 0 marks.now) }
{
    let mut column = 0;
    'marks: for mark in marks {
        let label = mark_label(alloc, mark.instant, form)?;
        push_times(text, b' ', mark.cell.saturating_sub(column))?;
        text.extend_from_slice(&label)?;
        column = mark.cell + label.len();
    }
    push_end(alloc, text, scale, form, column)
}

/// Appends a ruler with the marks.
pub(crate) fn push_ruler(text: &mut Vec<u8>, cells: usize, marks: &[Tick]) -> Result<(), AllocError>
    requires { AreWithin marks.now }
    ensures { OnOk result (text.new.items ≡ text.old.items ++ ruler_from cells 0 marks.now) }
{
    let mut column = 0;
    'marks: for mark in marks {
        push_times(text, b'-', mark.cell.saturating_sub(column))?;
        text.push(b'|')?;
        column = mark.cell + 1;
    }
    push_times(text, b'-', cells.saturating_sub(column))?;
    text.push(b'|')?;
    Ok(())
}
