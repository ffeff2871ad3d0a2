//! Pictures of tables, and tables in the formats of reports.

ghost use Rattle.std.specs.Thread.{IsSync};

use crate::output::{lines, table_of};
use std::alloc::{AllocError, Global};
use std::str;
use std::thread::Threads;
use tq_base::{Column, Form, Kind, Name, Period, Rows, read_bound, read_instant};
use tq_draw::{Workers, draw, draw_html};
use tq_report::{Format, ReportOptions, by_time, report, typed_text};
use tq_table::{Table, table_text};

/// The period from one number to another; `None` if there is none.
pub(crate) fn window_of(start: &str, end: &str) -> Option<Period> {
    let start = read_instant(start.as_bytes(), Form::Numbers)?;
    let end = read_bound(end.as_bytes(), Form::Numbers)?;
    Period::new(start, end)
}

/// Prints the picture of a table of the rows in a window, line by line.
pub(crate) fn print_picture<R: Threads + Sync>(
    workers: &Workers<'_, R>,
    rows: &Rows,
    names: &[&str],
    width: &str,
    form: Form,
    window: Option<Period>,
    out: &mut String,
) -> Result<(), AllocError>
    requires { IsSync R.row }
{
    let table = table_of(workers.alloc, lines(workers.alloc, rows)?, names)?;
    let width = width.parse().unwrap_or(0);
    let picture = draw(workers, &table, form, width, window)?;
    print_lines(&picture, out)
}

// The page of a table, with a statement that has to be escaped.
fn page_of<R: Threads + Sync>(
    workers: &Workers<'_, R>,
    table: &Table<'_>,
) -> Result<Vec<u8>, AllocError>
    requires { IsSync R.row }
{
    draw_html(workers, table, Form::Numbers, 40, None, b"a < 'b' & c\nd")
}

/// Prints an HTML page with the picture of a table of the rows, line by line.
pub(crate) fn print_page<R: Threads + Sync>(
    workers: &Workers<'_, R>,
    rows: &Rows,
    names: &[&str],
    out: &mut String,
) -> Result<(), AllocError>
    requires { IsSync R.row }
{
    let table = table_of(workers.alloc, lines(workers.alloc, rows)?, names)?;
    print_lines(&page_of(workers, &table)?, out)
}

/// Prints how many bytes the picture of a table of the rows has and how many its page, and whether several workers draw
/// the same.
pub(crate) fn compare_pictures<R: Threads + Sync>(
    workers: &Workers<'_, R>,
    rows: &Rows,
    names: &[&str],
    out: &mut String,
) -> Result<(), AllocError>
    requires { IsSync R.row }
{
    let Workers { rt, alloc, .. } = *workers;
    let table = table_of(alloc, lines(alloc, rows)?, names)?;
    let picture = draw(workers, &table, Form::Numbers, 40, None)?;
    let page = page_of(workers, &table)?;
    let mut is_same = true;
    for count in [2, 7, 16] {
        let several = Workers { rt, alloc, count };
        is_same &= draw(&several, &table, Form::Numbers, 40, None)? == picture;
        is_same &= page_of(&several, &table)? == page;
    }
    let lens = [picture.len(), page.len()];
    writeln!(out, "{} {} {}", lens[0], lens[1], is_same)
}

// The format with this name.
fn format_of(name: &str) -> Option<Format> {
    match name {
        "csv" => Some(Format::Csv),
        "aligned" => Some(Format::Aligned),
        "markdown" => Some(Format::Markdown),
        "tsv" => Some(Format::Tsv),
        "json" => Some(Format::Json),
        "json-lines" => Some(Format::JsonLines),
        _ => None,
    }
}

/// Prints a table of the rows in a format, line by line.
pub(crate) fn print_report(
    alloc: Global,
    rows: &Rows,
    names: &[&str],
    format: &str,
    form: Form,
    out: &mut String,
) -> Result<(), AllocError> {
    let table = table_of(alloc, lines(alloc, rows)?, names)?;
    match format_of(format) {
        Some(format) => {
            let options = ReportOptions {
                format,
                form,
                inclusive: false,
                places: Vec::new(alloc),
            };
            print_lines(&report(alloc, &table, &options)?, out)
        }
        None => out.push_str("no format\n"),
    }
}

/// The numbers that the text has between commas; 0 for what is no number.
pub(crate) fn numbers_in(alloc: Global, text: &str) -> Result<Vec<u32>, AllocError> {
    text.split(',')
        .map(|part| part.parse::<u32>().unwrap_or(0))
        .collect(alloc)
}

/// Prints a table of the rows in a format, with the decimal places that `places` lists for the columns, and with the last
/// instant of each period.
pub(crate) fn print_amounts(
    alloc: Global,
    rows: &Rows,
    names: &[&str],
    format: &str,
    places: &str,
    out: &mut String,
) -> Result<(), AllocError> {
    let table = table_of(alloc, lines(alloc, rows)?, names)?;
    match format_of(format) {
        Some(format) => {
            let options = ReportOptions {
                format,
                form: Form::Numbers,
                inclusive: true,
                places: numbers_in(alloc, places)?,
            };
            print_lines(&report(alloc, &table, &options)?, out)
        }
        None => out.push_str("no format\n"),
    }
}

/// Prints the rows ordered by start, then end, then values.
pub(crate) fn print_by_time(
    alloc: Global,
    rows: &Rows,
    names: &[&str],
    out: &mut String,
) -> Result<(), AllocError> {
    let table = by_time(alloc, table_of(alloc, lines(alloc, rows)?, names)?)?;
    print_lines(&table_text(alloc, &table, Form::Numbers)?, out)
}

// A column with this name. It has texts if the name begins with `t`.
fn column_of(name: &Name) -> Result<Column, AllocError> {
    let kind = if name.bytes().starts_with(b"t") {
        Kind::Text
    } else {
        Kind::Int
    };
    let name = name.try_copy()?;
    Ok(Column { name, kind })
}

/// Prints the rows as a table file. Columns whose names begin with `t` have texts.
pub(crate) fn print_typed(
    alloc: Global,
    rows: &Rows,
    names: &[&str],
    out: &mut String,
) -> Result<(), AllocError> {
    let table = table_of(alloc, lines(alloc, rows)?, names)?;
    let mut columns = Vec::new(alloc);
    for name in table.columns.get() {
        columns.push(column_of(name)?).map_err(AllocError::from)?;
    }
    print_lines(
        &typed_text(alloc, &columns, &table.rows, Form::Numbers)?,
        out,
    )
}

/// Prints a text line by line.
pub(crate) fn print_lines(text: &[u8], out: &mut String) -> Result<(), AllocError> {
    for line in str::from_utf8(text).unwrap_or("no text").lines() {
        out.push_str(line)?;
        out.push('\n')?;
    }
    Ok(())
}
