// The lines of the column names and of the rows.

ghost use Rattle.std.specs.Prelude.{◌≡◌, [], ◌++◌, ◌-◌, IfOk, OnOk, length, slice_set};
ghost use Rattle.std.specs.List.{flat_map};
ghost use Rattle.tq_base.specs.Relations.{row_at};
ghost use Rattle.tq_draw.specs.Labels.{column_text, columns_text};
ghost use Rattle.tq_draw.specs.Pictures.{drawn_row, front_text, name_label, value_label};
ghost use Rattle.tq_draw.specs.Scales.{IsScale};

use crate::bars::{begins_before, push_arrow, push_bar};
use crate::labels::{label, push_filled, value_label};
use crate::pieces::{Lines, Workers, push_lines};
use crate::scale::Scale;
use crate::shown_rows::ShownRows;
use std::alloc::{AllocError, Global};
use std::thread::Threads;
use tq_base::{Name, Period, Row};

/// Appends a label, filled up to the width of its column, and two spaces.
pub(crate) fn push_column(text: &mut Vec<u8>, label: &[u8], width: usize) -> Result<(), AllocError>
    ensures { OnOk result (text.new.items ≡ text.old.items ++ column_text width label.now) }
{
    push_filled(text, label, width)?;
    text.extend_from_slice(b"  ")
}

/// Appends the names of the columns.
pub(crate) fn push_names(
    alloc: Global,
    text: &mut Vec<u8>,
    columns: &[Name],
    widths: &[usize],
) -> Result<(), AllocError>
    requires { length widths.now ≡ length columns.now }
    ensures { OnOk result (text.new.items ≡ text.old.items ++ columns_text widths.now (name_label columns.now)) }
{
    'columns: for column in 0..widths.len() {
        let label = label(alloc, columns[column].bytes())?;
        push_column(text, &label, widths[column])?;
    }
    Ok(())
}

/// Appends spaces as wide as the columns.
pub(crate) fn push_blanks(text: &mut Vec<u8>, widths: &[usize]) -> Result<(), AllocError>
    ensures { OnOk result (text.new.items ≡ text.old.items ++ columns_text widths.now (λ _. [])) }
{
    'columns: for column in 0..widths.len() {
        push_column(text, b"", widths[column])?;
    }
    Ok(())
}

/// Appends the values of a row.
pub(crate) fn push_values(
    alloc: Global,
    text: &mut Vec<u8>,
    row: &Row<'_>,
    widths: &[usize],
) -> Result<(), AllocError>
    ensures { OnOk result (text.new.items ≡ text.old.items ++ columns_text widths.now (value_label row.now)) }
{
    'columns: for column in 0..widths.len() {
        let label = value_label(alloc, row.value(column))?;
        push_column(text, &label, widths[column])?;
    }
    Ok(())
}

// Writes `<` over the last byte, if there is one.
fn mark_last(line: &mut Vec<u8>)
    ensures { line.new.items ≡ slice_set line.old.items (length line.old.items - 1) 60 }
{
    let len = line.len();
    if len > 0 {
        line[len - 1] = b'<';
    }
}

// The values of a row, with `<` before its bar if it begins before the scale.
fn front(
    alloc: Global,
    row: &Row<'_>,
    period: &Period,
    widths: &[usize],
    scale: &Scale,
) -> Result<Vec<u8>, AllocError>
    ensures { IfOk result (λ line. line.items ≡ front_text widths.now scale.now (record { values = row.now; period = period.now })) }
{
    let mut line = Vec::new(alloc);
    push_values(alloc, &mut line, row, widths)?;
    if begins_before(scale, period) {
        mark_last(&mut line);
    }
    Ok(line)
}

// Appends the line of a row.
fn push_row(
    alloc: Global,
    text: &mut Vec<u8>,
    row: &Row<'_>,
    period: &Period,
    widths: &[usize],
    scale: &Scale,
) -> Result<(), AllocError>
    requires { IsScale scale.now }
    ensures { OnOk result (text.new.items ≡ text.old.items ++ drawn_row widths.now scale.now (record { values = row.now; period = period.now })) }
{
    let front = front(alloc, row, period, widths, scale)?;
    text.extend_from_slice(&front)?;
    push_bar(text, scale, period)?;
    push_arrow(text, scale, period)?;
    text.push(b'\n')?;
    Ok(())
}

// The lines of the rows.
#[derive(Drop)]
struct DrawnRows<'p, 'r, 'a> {
    rows: &'p ShownRows<'r, 'a>,
    widths: &'p [usize],
    scale: &'p Scale,
    ghost scaled: { IsScale scale.now },
}

impl Lines for DrawnRows<'_, '_, '_> {
    ghost rows = { λ l. length l.rows.now };

    ghost line = { λ l row. drawn_row l.widths.now l.scale.now (row_at l.rows.now row) };

    fn len(&self) -> usize {
        self.rows.len()
    }

    fn push(&self, alloc: Global, text: &mut Vec<u8>, row: usize) -> Result<(), AllocError> {
        push_row(
            alloc,
            text,
            &self.rows.row(row),
            &self.rows.period(row),
            self.widths,
            self.scale,
        )
    }
}

/// Appends a line for each row.
pub(crate) fn push_rows<R: Threads + Sync>(
    workers: &Workers<'_, R>,
    text: &mut Vec<u8>,
    rows: &ShownRows<'_, '_>,
    widths: &[usize],
    scale: &Scale,
) -> Result<(), AllocError>
    requires { IsScale scale.now }
    ensures { OnOk result (text.new.items ≡ text.old.items ++ flat_map (drawn_row widths.now scale.now) rows.now) }
{
    let lines = DrawnRows {
        rows,
        widths,
        scale,
    };
    push_lines(workers, text, &lines)?;
    Ok(())
}
