// A table as an HTML page.

ghost use Rattle.std.specs.Prelude.{◌≡◌, ◌++◌, IfOk, OnOk, length};
ghost use Rattle.std.specs.List.{flat_map, range_with_len};
ghost use Rattle.tq_draw.specs.Html.{html_of, line_at, name_cell, names_line, page_head, page_over, period_cells, row_line, statement_element, table_element, text_cell, value_cell};
ghost use Rattle.tq_table.specs.Text.{value_field};

use crate::labels::{escaped_lines, escaped_text, push_bound, push_instant};
use crate::pieces::{Lines, Workers, push_lines};
use crate::shown_rows::ShownRows;
use crate::svg::push_svg;
use crate::xml::push_xml;
use itoa::Buffer;
use std::alloc::{AllocError, Global};
use std::thread::Threads;
use tq_base::{Form, Name, Period, Row, Value, ValueRef};
use tq_table::Table;

// Appends the page up to its body.
fn push_page_head(text: &mut Vec<u8>) -> Result<(), AllocError>
    ensures { OnOk result (text.new.items ≡ text.old.items ++ page_head) }
{
    text.extend_from_slice(
        b"<!DOCTYPE html>\n<html>\n<head>\n<meta charset=\"utf-8\">\n<title>tq draw</title>\n<style>\n",
    )?;
    text.extend_from_slice(
        b"body { font-family: sans-serif; }\ntable { border-collapse: collapse; }\n",
    )?;
    text.extend_from_slice(
        b"th, td { border: 1px solid #ccc; padding: 2px 8px; text-align: left; white-space: pre; }\n",
    )?;
    text.extend_from_slice(b"</style>\n</head>\n<body>\n")?;
    Ok(())
}

// Appends a statement.
fn push_statement(alloc: Global, text: &mut Vec<u8>, statement: &[u8]) -> Result<(), AllocError>
    ensures { OnOk result (text.new.items ≡ text.old.items ++ statement_element statement.now) }
{
    let shown = escaped_lines(alloc, statement)?;
    text.extend_from_slice(b"<pre><code>")?;
    push_xml(text, &shown)?;
    text.extend_from_slice(b"</code></pre>\n")?;
    Ok(())
}

// Appends the name of a column.
#[tactic(auto, unfolding(crate::specs::Html::name_cell))]
fn push_name_cell(alloc: Global, text: &mut Vec<u8>, name: &[u8]) -> Result<(), AllocError>
    ensures { OnOk result (text.new.items ≡ text.old.items ++ name_cell name.now) }
{
    let shown = escaped_text(alloc, name)?;
    text.extend_from_slice(b"<th>")?;
    push_xml(text, &shown)?;
    text.extend_from_slice(b"</th>")
}

// Appends a text in a row.
#[tactic(auto, unfolding(crate::specs::Html::text_cell))]
fn push_text_cell(alloc: Global, text: &mut Vec<u8>, content: &[u8]) -> Result<(), AllocError>
    ensures { OnOk result (text.new.items ≡ text.old.items ++ text_cell content.now) }
{
    let shown = escaped_text(alloc, content)?;
    text.extend_from_slice(b"<td>")?;
    push_xml(text, &shown)?;
    text.extend_from_slice(b"</td>")
}

// Appends a value in a row.
fn push_value_cell(alloc: Global, text: &mut Vec<u8>, value: &Value) -> Result<(), AllocError>
    ensures { OnOk result (text.new.items ≡ text.old.items ++ text_cell (value_field value.now)) }
{
    match value.as_ref() {
        ValueRef::Int(number) => {
            push_text_cell(alloc, text, Buffer::new().format(number).as_bytes())
        }
        ValueRef::Text(content) => push_text_cell(alloc, text, content.as_bytes()),
    }
}

// Appends the values of a row.
fn push_value_cells(
    alloc: Global,
    text: &mut Vec<u8>,
    row: &Row<'_>,
    columns: usize,
) -> Result<(), AllocError>
    ensures { OnOk result (text.new.items ≡ text.old.items ++ flat_map (value_cell row.now) (range_with_len 0 columns)) }
{
    'columns: for column in 0..columns {
        push_value_cell(alloc, text, row.value(column))?;
    }
    Ok(())
}

// Appends the start and the end of a period.
#[tactic(auto, unfolding(crate::specs::Html::period_cells))]
fn push_period_cells(text: &mut Vec<u8>, period: &Period, form: Form) -> Result<(), AllocError>
    ensures { OnOk result (text.new.items ≡ text.old.items ++ period_cells form period.now) }
{
    text.extend_from_slice(b"<td>")?;
    push_instant(text, period.start, form)?;
    text.extend_from_slice(b"</td><td>")?;
    push_bound(text, period.end, form)?;
    text.extend_from_slice(b"</td>")
}

// Appends the names of the columns.
fn push_name_cells(alloc: Global, text: &mut Vec<u8>, columns: &[Name]) -> Result<(), AllocError>
    ensures { OnOk result (text.new.items ≡ text.old.items ++ flat_map name_cell columns.now) }
{
    'columns: for column in 0..columns.len() {
        push_name_cell(alloc, text, columns[column].bytes())?;
    }
    Ok(())
}

// Appends the line of the names.
#[tactic(auto, unfolding(crate::specs::Html::names_line))]
fn push_names_line(alloc: Global, text: &mut Vec<u8>, columns: &[Name]) -> Result<(), AllocError>
    ensures { OnOk result (text.new.items ≡ text.old.items ++ names_line columns.now) }
{
    text.extend_from_slice(b"<tr>")?;
    push_name_cells(alloc, text, columns)?;
    text.extend_from_slice(b"<th>from</th><th>to</th></tr>\n")
}

// Appends the line of a row.
#[tactic(auto, unfolding(crate::specs::Html::row_line))]
fn push_row_line(
    alloc: Global,
    text: &mut Vec<u8>,
    form: Form,
    columns: usize,
    row: &Row<'_>,
    period: &Period,
) -> Result<(), AllocError>
    ensures { OnOk result (text.new.items ≡ text.old.items ++ row_line form columns row.now period.now) }
{
    text.extend_from_slice(b"<tr>")?;
    push_value_cells(alloc, text, row, columns)?;
    push_period_cells(text, period, form)?;
    text.extend_from_slice(b"</tr>\n")
}

// The lines of the rows.
#[derive(Drop)]
struct RowLines<'p, 'r, 'a> {
    rows: &'p ShownRows<'r, 'a>,
    form: Form,
    columns: usize,
}

impl Lines for RowLines<'_, '_, '_> {
    ghost rows = { λ l. length l.rows.now };

    ghost line = { λ l row. line_at l.form l.columns l.rows.now row };

    fn len(&self) -> usize {
        self.rows.len()
    }

    fn push(&self, alloc: Global, text: &mut Vec<u8>, row: usize) -> Result<(), AllocError> {
        let values = self.rows.row(row);
        let period = self.rows.period(row);
        push_row_line(alloc, text, self.form, self.columns, &values, &period)
    }
}

// Appends the rows as a table.
#[tactic(auto, unfolding(crate::specs::Html::table_element))]
fn push_table<R: Threads + Sync>(
    workers: &Workers<'_, R>,
    text: &mut Vec<u8>,
    form: Form,
    columns: &[Name],
    rows: &ShownRows<'_, '_>,
) -> Result<(), AllocError>
    ensures { OnOk result (text.new.items ≡ text.old.items ++ table_element form columns.now rows.now) }
{
    text.extend_from_slice(b"<table>\n")?;
    push_names_line(workers.alloc, text, columns)?;
    let lines = RowLines {
        rows,
        form,
        columns: columns.len(),
    };
    push_lines(workers, text, &lines)?;
    text.extend_from_slice(b"</table>\n")
}

// Appends the page of the rows.
fn push_page<R: Threads + Sync>(
    workers: &Workers<'_, R>,
    text: &mut Vec<u8>,
    form: Form,
    width: usize,
    window: &Option<Period>,
    statement: &[u8],
    columns: &[Name],
    rows: &ShownRows<'_, '_>,
) -> Result<(), AllocError>
    ensures { OnOk result (text.new.items ≡ text.old.items ++ page_over form width window.now statement.now columns.now rows.now) }
{
    push_page_head(text)?;
    push_statement(workers.alloc, text, statement)?;
    push_svg(workers, text, form, width, window, columns, rows)?;
    push_table(workers, text, form, columns, rows)?;
    text.extend_from_slice(b"</body>\n</html>\n")?;
    Ok(())
}

/// Draws the table as a standalone HTML page: the statement, the image that `draw_svg` draws, and the rows as a table. The
/// page shows hidden characters as `escaped_text` does, except line feeds of the statement. `AllocError` if an allocation
/// failed.
pub fn draw_html<R: Threads + Sync>(
    workers: &Workers<'_, R>,
    table: &Table<'_>,
    form: Form,
    width: usize,
    window: Option<Period>,
    statement: &[u8],
) -> Result<Vec<u8>, AllocError>
    ensures { IfOk result (λ text. text.items ≡ html_of form width window statement.now table.now) }
{
    let rows = ShownRows::of(workers.alloc, &table.rows, &window)?;
    let mut text = Vec::new(workers.alloc);
    push_page(
        workers,
        &mut text,
        form,
        width,
        &window,
        statement,
        table.columns.get(),
        &rows,
    )?;
    Ok(text)
}
