// The summary of tables, as text.

ghost use Rattle.std.specs.Prelude.{◌≡◌, ◌++◌, ◌<◌, IfOk, OnOk, length};
ghost use Rattle.std.specs.List.{flat_map};
ghost use Rattle.tq_check.specs.Reports.{column_text, counts_text, equal_rows_text, first_text, head_text, kind_text, last_text, periods_text, table_text, time_text, IsSummaryOf};

use crate::equal_rows::tally_of;
use crate::key_report::{KeyChecks, key_lines};
use crate::numbers::{first_start, last_change, open_periods};
use crate::text::push_count;
use std::alloc::{AllocError, Global};
use tq_base::{Column, Form, Instant, Kind, Period, Rows, Schema, put_instant};
use tq_event::Tables;

fn kind_text(kind: Kind) -> &'static [u8]
    ensures { result.now ≡ kind_text kind }
{
    match kind {
        Kind::Int => b"int",
        Kind::Text => b"text",
    }
}

// Appends a space, then the name and the kind of a column.
fn push_column(text: &mut Vec<u8>, column: &Column) -> Result<(), AllocError>
    ensures { OnOk result (text.new.items ≡ text.old.items ++ column_text column.now) }
{
    text.push(b' ')?;
    text.extend_from_slice(column.name.bytes())?;
    text.push(b':')?;
    text.extend_from_slice(kind_text(column.kind))
}

fn push_columns(text: &mut Vec<u8>, columns: &[Column]) -> Result<(), AllocError>
    ensures { OnOk result (text.new.items ≡ text.old.items ++ flat_map column_text columns.now) }
{
    'columns: for column in columns {
        push_column(text, column)?;
    }
    Ok(())
}

fn push_head(text: &mut Vec<u8>, schema: &Schema) -> Result<(), AllocError>
    ensures { OnOk result (text.new.items ≡ text.old.items ++ head_text schema.now) }
{
    text.extend_from_slice(b"table ")?;
    text.extend_from_slice(schema.name.bytes())?;
    text.extend_from_slice(b"\n  columns     ")?;
    push_columns(text, schema.columns.get())
}

// Appends an instant, or `none` if there are no periods.
fn push_instant(
    text: &mut Vec<u8>,
    periods: &[Period],
    number: u64,
    form: Form,
) -> Result<(), AllocError>
    requires { 0 < length periods.now → number < 1000000000000 }
    ensures { OnOk result (text.new.items ≡ text.old.items ++ time_text form periods.now number) }
{
    if periods.is_empty() {
        return text.extend_from_slice(b"none");
    }
    let mut room = [0; 12];
    let len = put_instant(Instant::new(number).unwrap(), form, &mut room);
    text.extend_from_slice(&room[..len])
}

// Appends a label, then the time, or `none`.
fn push_time(
    text: &mut Vec<u8>,
    label: &[u8],
    periods: &[Period],
    number: u64,
    form: Form,
) -> Result<(), AllocError>
    requires { 0 < length periods.now → number < 1000000000000 }
    ensures { OnOk result (text.new.items ≡ text.old.items ++ label.now ++ time_text form periods.now number) }
{
    text.extend_from_slice(label)?;
    push_instant(text, periods, number, form)
}

fn push_counts(text: &mut Vec<u8>, periods: &[Period]) -> Result<(), AllocError>
    ensures { OnOk result (text.new.items ≡ text.old.items ++ counts_text periods.now) }
{
    push_count(text, b"\n  rows         ", periods.len())?;
    push_count(text, b"\n  open         ", open_periods(periods))
}

fn push_first(text: &mut Vec<u8>, periods: &[Period], form: Form) -> Result<(), AllocError>
    ensures { OnOk result (text.new.items ≡ text.old.items ++ first_text form periods.now) }
{
    let first = first_start(periods);
    push_time(text, b"\n  first start  ", periods, first, form)?;
    Ok(())
}

fn push_last(text: &mut Vec<u8>, periods: &[Period], form: Form) -> Result<(), AllocError>
    ensures { OnOk result (text.new.items ≡ text.old.items ++ last_text form periods.now) }
{
    let last = last_change(periods);
    push_time(text, b"\n  last change  ", periods, last, form)?;
    Ok(())
}

fn push_periods(text: &mut Vec<u8>, periods: &[Period], form: Form) -> Result<(), AllocError>
    ensures { OnOk result (text.new.items ≡ text.old.items ++ periods_text form periods.now) }
{
    push_counts(text, periods)?;
    push_first(text, periods, form)?;
    push_last(text, periods, form)?;
    Ok(())
}

fn push_tally(alloc: Global, text: &mut Vec<u8>, rows: &Rows) -> Result<(), AllocError>
    ensures { OnOk result (text.new.items ≡ text.old.items ++ equal_rows_text rows.now.items) }
{
    let tally = tally_of(alloc, rows)?;
    push_count(text, b"\n  overlapping  ", tally.overlapping)?;
    push_count(text, b"\n  meeting      ", tally.meeting)
}

// Appends the summary of a table. `lines` are those about rows of one key.
fn push_table(
    alloc: Global,
    text: &mut Vec<u8>,
    schema: &Schema,
    rows: &Rows,
    lines: &[u8],
    form: Form,
) -> Result<(), AllocError>
    ensures { OnOk result (text.new.items ≡ text.old.items ++ table_text form schema.now rows.now.items lines.now) }
{
    push_head(text, schema)?;
    push_periods(text, rows.periods(), form)?;
    push_tally(alloc, text, rows)?;
    text.extend_from_slice(lines)?;
    text.push(b'\n')?;
    Ok(())
}

/// The summary of the tables, in their order; `form` says how instants are written, and `keys` which lines there are
/// about rows of one key. Requires rows for each table. `AllocError` if an allocation failed.
pub fn check_text(
    alloc: Global,
    tables: &Tables,
    form: Form,
    keys: KeyChecks,
) -> Result<Vec<u8>, AllocError>
    requires { length tables.now.rows ≡ length tables.now.catalogue.tables }
    ensures { IfOk result (λ text. IsSummaryOf form keys tables.now.catalogue.tables tables.now.rows text.items) }
{
    let schemas = tables.catalogue.tables.get();
    let rows = tables.rows.get();
    let mut text = Vec::new(alloc);
    'tables: for table in 0..schemas.len() {
        let held = &rows[table];
        let lines = key_lines(alloc, held, form, keys)?;
        push_table(alloc, &mut text, &schemas[table], held, &lines, form)?;
    }
    Ok(text)
}
