// The lines of names and rows.

ghost use Rattle.std.specs.Prelude.{◌≡◌, ◌<◌, ◌+◌, ◌^◌, ◌++◌, OnOk, length};
ghost use Rattle.std.specs.List.{flat_map, range_with_len};
ghost use Rattle.tq_report.specs.Layouts.{name_at};
ghost use Rattle.tq_report.specs.Reports.{alignment, alignments_text, between, cell_text, close_text, column_text, dashes_text, field_text, names_text, open_text, padded, row_text, rows_text, tail_text, value_text};
ghost use Rattle.tq_report.specs.Texts.{end_in, instant_in, name_in};

use crate::format::Format;
use crate::layout::Layout;
use crate::options::ReportOptions;
use crate::texts::{push_end, push_instant, push_name, push_value};
use std::alloc::{AllocError, Global};
use tq_base::{Bound, Instant, Name, Period, Row, ValueRef};
use tq_draw::columns_in_bytes;
use tq_table::{ResultRows, places_at, push_times};

// The values of this many rows are read before their lines are written.
const BLOCK: usize = 64;

// Appends the cell with spaces on one side, up to the width.
fn push_padded(
    text: &mut Vec<u8>,
    cell: &[u8],
    width: usize,
    is_right: bool,
) -> Result<(), AllocError>
    ensures { OnOk result (text.new.items ≡ text.old.items ++ padded width is_right cell.now) }
{
    let spaces = width.saturating_sub(columns_in_bytes(cell));
    if is_right {
        push_times(text, b' ', spaces)?;
        text.extend_from_slice(cell)
    } else {
        text.extend_from_slice(cell)?;
        push_times(text, b' ', spaces)
    }
}

// Appends a cell of the aligned format.
fn push_aligned(
    text: &mut Vec<u8>,
    layout: &Layout,
    field: usize,
    cell: &[u8],
) -> Result<(), AllocError>
    ensures { OnOk result (text.new.items ≡ text.old.items ++ cell_text Format.Aligned layout.now field cell.now) }
{
    push_padded(text, cell, layout.width(field), layout.is_right(field))
}

// Appends what begins a line.
fn push_open(text: &mut Vec<u8>, format: Format) -> Result<(), AllocError>
    ensures { OnOk result (text.new.items ≡ text.old.items ++ open_text format) }
{
    match format {
        Format::Aligned | Format::Markdown => text.extend_from_slice(b"|"),
        Format::Tsv | Format::Csv => Ok(()),
        Format::Json | Format::JsonLines => text.extend_from_slice(b"{"),
    }
}

// Appends what ends a field.
fn push_tail(text: &mut Vec<u8>, format: Format) -> Result<(), AllocError>
    ensures { OnOk result (text.new.items ≡ text.old.items ++ tail_text format) }
{
    match format {
        Format::Aligned | Format::Markdown => text.extend_from_slice(b" |"),
        Format::Tsv => text.extend_from_slice(b"\t"),
        Format::Json | Format::JsonLines | Format::Csv => text.extend_from_slice(b","),
    }
}

// Appends what ends a line.
fn push_close(text: &mut Vec<u8>, format: Format) -> Result<(), AllocError>
    ensures { OnOk result (text.new.items ≡ text.old.items ++ close_text format) }
{
    match format {
        Format::Aligned | Format::Markdown => text.extend_from_slice(b" |\n"),
        Format::Tsv | Format::Csv => text.extend_from_slice(b"\n"),
        Format::Json => text.extend_from_slice(b"}"),
        Format::JsonLines => text.extend_from_slice(b"}\n"),
    }
}

/// What the lines of a table have in common.
#[derive(Drop)]
pub(crate) struct Lines<'a> {
    pub alloc: Global,
    pub options: &'a ReportOptions,
    pub columns: usize,
    pub layout: Layout,
}

// Appends a field: the text before it, and the cell.
fn push_field(
    text: &mut Vec<u8>,
    lines: &Lines<'_>,
    field: usize,
    cell: &[u8],
) -> Result<(), AllocError>
    ensures { OnOk result (text.new.items ≡ text.old.items ++ field_text lines.now.options.now.format lines.now.layout field cell.now) }
{
    text.extend_from_slice(lines.layout.lead(field))?;
    match lines.options.format {
        Format::Aligned => push_aligned(text, &lines.layout, field, cell),
        _ => text.extend_from_slice(cell),
    }
}

// Appends the fields of the names.
fn push_name_fields(
    text: &mut Vec<u8>,
    lines: &Lines<'_>,
    columns: &[Name],
) -> Result<(), AllocError>
    ensures { OnOk result (text.new.items ≡ text.old.items
        ++ flat_map (column_text lines.now.options.now.format lines.now.layout (λ column. name_in lines.now.options.now.format (name_at columns.now column))) (range_with_len 0 (length columns.now))) }
{
    let format = lines.options.format;
    let mut cell = Vec::new(lines.alloc);
    'columns: for column in 0..columns.len() {
        cell.clear();
        push_name(lines.alloc, &mut cell, columns[column].bytes(), format)?;
        push_field(text, lines, column, &cell)?;
        push_tail(text, format)?;
    }
    Ok(())
}

/// Appends the line of the names.
pub(crate) fn push_names(
    text: &mut Vec<u8>,
    lines: &Lines<'_>,
    columns: &[Name],
) -> Result<(), AllocError>
    ensures { OnOk result (text.new.items ≡ text.old.items ++ names_text lines.now.options.now.format lines.now.layout columns.now) }
{
    let format = lines.options.format;
    push_open(text, format)?;
    push_name_fields(text, lines, columns)?;
    push_field(text, lines, columns.len(), b"from")?;
    push_tail(text, format)?;
    push_field(text, lines, columns.len() + 1, b"to")?;
    push_close(text, format)
}

// Appends the value of a row in a column. `cell` is room for one value.
fn push_value_cell(
    text: &mut Vec<u8>,
    cell: &mut Vec<u8>,
    lines: &Lines<'_>,
    row: &Row<'_>,
    column: usize,
) -> Result<(), AllocError>
    ensures { OnOk result (text.new.items ≡ text.old.items
        ++ cell_text lines.now.options.now.format lines.now.layout column (value_text lines.now.options.now row.now column)) }
{
    let options = lines.options;
    let value = row.value(column).as_ref();
    let places = places_at(&options.places, column);
    match options.format {
        Format::Aligned => {
            cell.clear();
            push_value(lines.alloc, cell, value, Format::Aligned, places)?;
            push_aligned(text, &lines.layout, column, cell)
        }
        format => push_value(lines.alloc, text, value, format, places),
    }
}

// Appends the fields of the values of a row. `cell` is room for one value.
fn push_value_fields(
    text: &mut Vec<u8>,
    cell: &mut Vec<u8>,
    lines: &Lines<'_>,
    row: &Row<'_>,
) -> Result<(), AllocError>
    ensures { OnOk result (text.new.items ≡ text.old.items
        ++ flat_map (column_text lines.now.options.now.format lines.now.layout (value_text lines.now.options.now row.now)) (range_with_len 0 lines.now.columns)) }
{
    'columns: for column in 0..lines.columns {
        text.extend_from_slice(lines.layout.lead(column))?;
        push_value_cell(text, cell, lines, row, column)?;
        push_tail(text, lines.options.format)?;
    }
    Ok(())
}

// Appends the start of a period. `cell` is room for it.
fn push_start_cell(
    text: &mut Vec<u8>,
    cell: &mut Vec<u8>,
    lines: &Lines<'_>,
    start: Instant,
) -> Result<(), AllocError>
    ensures { OnOk result (text.new.items ≡ text.old.items
        ++ cell_text lines.now.options.now.format lines.now.layout lines.now.columns (instant_in lines.now.options.now.format lines.now.options.now.form start)) }
{
    let form = lines.options.form;
    match lines.options.format {
        Format::Aligned => {
            cell.clear();
            push_instant(cell, start, Format::Aligned, form)?;
            push_aligned(text, &lines.layout, lines.columns, cell)
        }
        format => push_instant(text, start, format, form),
    }
}

// Appends the end of a period. `cell` is room for it.
fn push_end_cell(
    text: &mut Vec<u8>,
    cell: &mut Vec<u8>,
    lines: &Lines<'_>,
    end: Bound,
) -> Result<(), AllocError>
    requires { lines.now.columns < 2 ^ 63 }
    ensures { OnOk result (text.new.items ≡ text.old.items
        ++ cell_text lines.now.options.now.format lines.now.layout (lines.now.columns + 1) (end_in lines.now.options.now.format lines.now.options.now.form lines.now.options.now.inclusive end)) }
{
    let options = lines.options;
    match options.format {
        Format::Aligned => {
            cell.clear();
            push_end(cell, end, Format::Aligned, options.form, options.inclusive)?;
            push_aligned(text, &lines.layout, lines.columns + 1, cell)
        }
        format => push_end(text, end, format, options.form, options.inclusive),
    }
}

// Appends the line of a row. `cell` is room for one field.
fn push_row(
    text: &mut Vec<u8>,
    cell: &mut Vec<u8>,
    lines: &Lines<'_>,
    row: &Row<'_>,
    period: Period,
) -> Result<(), AllocError>
    requires { lines.now.columns < 2 ^ 63 }
    ensures { OnOk result (text.new.items ≡ text.old.items
        ++ row_text lines.now.options.now lines.now.layout lines.now.columns (record { values = row.now; period = period })) }
{
    let format = lines.options.format;
    push_open(text, format)?;
    push_value_fields(text, cell, lines, row)?;
    text.extend_from_slice(lines.layout.lead(lines.columns))?;
    push_start_cell(text, cell, lines, period.start)?;
    push_tail(text, format)?;
    text.extend_from_slice(lines.layout.lead(lines.columns + 1))?;
    push_end_cell(text, cell, lines, period.end)?;
    push_close(text, format)
}

// Appends what separates a row from the row before it.
fn push_between(text: &mut Vec<u8>, format: Format, row: usize) -> Result<(), AllocError>
    ensures { OnOk result (text.new.items ≡ text.old.items ++ between format row) }
{
    if format == Format::Json && row > 0 {
        text.extend_from_slice(b",\n")
    } else {
        Ok(())
    }
}

// The number of bytes of the texts of a row.
fn text_bytes(row: &Row<'_>, columns: usize) -> usize {
    let mut bytes: usize = 0;
    'columns: for column in 0..columns {
        if let ValueRef::Text(text) = row.value(column).as_ref() {
            bytes = bytes.wrapping_add(text.len());
        }
    }
    bytes
}

// Reserves room for the texts of a block of rows. Values lie anywhere in memory; in a loop that does nothing else the
// processor overlaps many cache misses.
fn reserve_block(
    text: &mut Vec<u8>,
    rows: &ResultRows<'_>,
    columns: usize,
    start: usize,
) -> Result<(), AllocError>
    ensures { text.new.items ≡ text.old.items }
{
    let mut bytes: usize = 0;
    'rows: for row in start..start.saturating_add(BLOCK).min(rows.len()) {
        bytes = bytes.wrapping_add(text_bytes(&rows.row(row), columns));
    }
    text.reserve(bytes)
}

// Reserves room for a block of rows if this row is the first of one.
fn prepare_row(
    text: &mut Vec<u8>,
    rows: &ResultRows<'_>,
    columns: usize,
    row: usize,
) -> Result<(), AllocError>
    ensures { text.new.items ≡ text.old.items }
{
    if row % BLOCK == 0 {
        reserve_block(text, rows, columns, row)
    } else {
        Ok(())
    }
}

/// Appends the lines of all rows.
pub(crate) fn push_rows(
    text: &mut Vec<u8>,
    lines: &Lines<'_>,
    rows: &ResultRows<'_>,
) -> Result<(), AllocError>
    requires { lines.now.columns < 2 ^ 63 }
    ensures { OnOk result (text.new.items ≡ text.old.items ++ rows_text lines.now.options.now lines.now.layout lines.now.columns rows.now) }
{
    let mut cell = Vec::new(lines.alloc);
    'rows: for row in 0..rows.len() {
        prepare_row(text, rows, lines.columns, row)?;
        push_between(text, lines.options.format, row)?;
        push_row(text, &mut cell, lines, &rows.row(row), rows.period(row))?;
    }
    Ok(())
}

/// Appends the line of hyphens of the aligned format.
pub(crate) fn push_dashes(text: &mut Vec<u8>, layout: &Layout) -> Result<(), AllocError>
    ensures { OnOk result (text.new.items ≡ text.old.items ++ dashes_text layout.now) }
{
    text.push(b'+')?;
    'widths: for width in layout.widths() {
        push_times(text, b'-', *width)?;
        text.extend_from_slice(b"--+")?;
    }
    text.push(b'\n')?;
    Ok(())
}

fn push_alignment(text: &mut Vec<u8>, is_right: bool) -> Result<(), AllocError>
    ensures { OnOk result (text.new.items ≡ text.old.items ++ alignment is_right) }
{
    if is_right {
        text.extend_from_slice(b"---:|")
    } else {
        text.extend_from_slice(b"---|")
    }
}

/// Appends the line of Markdown that says how each column is aligned.
pub(crate) fn push_alignments(text: &mut Vec<u8>, layout: &Layout) -> Result<(), AllocError>
    ensures { OnOk result (text.new.items ≡ text.old.items ++ alignments_text layout.now) }
{
    text.push(b'|')?;
    'rights: for is_right in layout.rights() {
        push_alignment(text, *is_right)?;
    }
    text.push(b'\n')?;
    Ok(())
}
