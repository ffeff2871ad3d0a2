// A table in a format.

ghost use Rattle.std.specs.Prelude.{◌≡◌, ◌++◌, ◌<◌, IfOk, OnOk};
ghost use Rattle.tq_report.specs.Reports.{foot_text, head_text, report_of};

use crate::format::Format;
use crate::layout::Layout;
use crate::lines::{Lines, push_alignments, push_dashes, push_names, push_rows};
use crate::options::ReportOptions;
use std::alloc::{AllocError, Global};
use tq_base::Name;
use tq_table::Table;

// Appends what comes before the rows.
fn push_head(text: &mut Vec<u8>, lines: &Lines<'_>, columns: &[Name]) -> Result<(), AllocError>
    ensures { OnOk result (text.new.items ≡ text.old.items ++ head_text lines.now.options.now.format lines.now.layout columns.now) }
{
    match lines.options.format {
        Format::Aligned => {
            push_dashes(text, &lines.layout)?;
            push_names(text, lines, columns)?;
            push_dashes(text, &lines.layout)
        }
        Format::Markdown => {
            push_names(text, lines, columns)?;
            push_alignments(text, &lines.layout)
        }
        Format::Tsv | Format::Csv => push_names(text, lines, columns),
        Format::Json => text.extend_from_slice(b"["),
        Format::JsonLines => Ok(()),
    }
}

// Appends what comes after this number of rows.
fn push_foot(text: &mut Vec<u8>, lines: &Lines<'_>, rows: usize) -> Result<(), AllocError>
    ensures { OnOk result (text.new.items ≡ text.old.items ++ foot_text lines.now.options.now.format lines.now.layout rows) }
{
    match lines.options.format {
        Format::Aligned if rows > 0 => push_dashes(text, &lines.layout),
        Format::Json => text.extend_from_slice(b"]\n"),
        _ => Ok(()),
    }
}

/// Writes a table as the options say. `AllocError` if an allocation failed.
pub fn report(
    alloc: Global,
    table: &Table<'_>,
    options: &ReportOptions,
) -> Result<Vec<u8>, AllocError>
    ensures { IfOk result (λ text. text.items ≡ report_of options.now table.now) }
{
    let columns = table.columns.get();
    let lines = Lines {
        alloc,
        options,
        columns: columns.len(),
        layout: Layout::of(alloc, table, options)?,
    };
    let mut text = Vec::new(alloc);
    push_head(&mut text, &lines, columns)?;
    push_rows(&mut text, &lines, &table.rows)?;
    push_foot(&mut text, &lines, table.rows.len())?;
    Ok(text)
}
