// The lines of a profile.

ghost use Rattle.std.specs.Prelude.{◌≡◌, ◌++◌, IfOk, OnOk, decimal};
ghost use Rattle.std.specs.Fmt.{signed_decimal};
ghost use Rattle.std.specs.List.{flat_map};
ghost use Rattle.std.specs.Option.{option_copied};
ghost use Rattle.tq_base.specs.Dates.{digit};
ghost use Rattle.tq_base.specs.Numbers.{instant_text};
ghost use Rattle.tq_table.specs.Text.{bound_field};
ghost use Rattle.tq_profile.specs.ProfileText.{aggregate_name, coalesce_text, column_name, column_text, count_text, division_line, division_text, except_text, figures_text, from_text, group_text, indent, is_narrow, keys_text, link_text, operator_name, operator_text, query_text, ranges_text, right_text, rows_text, run_text, scan_of, scan_text, seconds_line, seconds_text, source_text, table_name, to_text, tree_text, window_text};

use crate::figures::{ExceptFigures, Figures, QueryFigures, SourceFigures};
use crate::operators::{ColumnFigures, LinkFigures, Operator, OperatorFigures, ScanFigures};
use itoa::Buffer;
use std::alloc::{AllocError, Global};
use tq_base::{Bound, Catalogue, Form, Instant, KeyRange, List, Period, put_instant};
use tq_exec::Division;

// The least and the greatest key.
const LEAST: i64 = i64::MIN;

const GREATEST: i64 = i64::MAX;

/// What a run reports of itself: its number of workers, how the execution was divided among them, the number of pieces of
/// work, and the milliseconds of loading, answering and printing, if a clock could be read.
#[derive(Clone, Copy, Debug)]
pub struct RunFigures {
    pub workers: u32,
    pub division: Division,
    /// Whether the rows were coalesced by ranges of their values.
    pub has_ranges: bool,
    pub pieces: u64,
    pub loading: Option<u64>,
    pub answering: Option<u64>,
    pub printing: Option<u64>,
}

fn push_instant(text: &mut Vec<u8>, instant: Instant, form: Form) -> Result<(), AllocError>
    ensures { OnOk result (text.new.items ≡ text.old.items ++ instant_text form instant) }
{
    let mut room = [0; 12];
    let len = put_instant(instant, form, &mut room);
    text.extend_from_slice(&room[..len])
}

fn push_bound(text: &mut Vec<u8>, bound: Bound, form: Form) -> Result<(), AllocError>
    ensures { OnOk result (text.new.items ≡ text.old.items ++ bound_field form bound) }
{
    match Instant::new(bound.number()) {
        Some(instant) => push_instant(text, instant, form),
        None => text.extend_from_slice(b"forever"),
    }
}

// The window.
#[tactic(auto, unfolding(crate::specs::ProfileText::window_text))]
fn push_window(text: &mut Vec<u8>, window: &Period, form: Form) -> Result<(), AllocError>
    ensures { OnOk result (text.new.items ≡ text.old.items ++ window_text form window.now) }
{
    text.extend_from_slice(b"  window         [")?;
    push_instant(text, window.start, form)?;
    text.extend_from_slice(b" - ")?;
    push_bound(text, window.end, form)?;
    text.extend_from_slice(b")\n")
}

fn push_number(text: &mut Vec<u8>, number: u64) -> Result<(), AllocError>
    ensures { OnOk result (text.new.items ≡ text.old.items ++ decimal number) }
{
    text.extend_from_slice(Buffer::new().format(number).as_bytes())
}

fn push_key(text: &mut Vec<u8>, key: i64) -> Result<(), AllocError>
    ensures { OnOk result (text.new.items ≡ text.old.items ++ signed_decimal key) }
{
    text.extend_from_slice(Buffer::new().format(key).as_bytes())
}

// From which key on, unless from the least.
fn push_from(text: &mut Vec<u8>, low: i64) -> Result<(), AllocError>
    ensures { OnOk result (text.new.items ≡ text.old.items ++ from_text low) }
{
    if low > LEAST {
        text.extend_from_slice(b" from ")?;
        return push_key(text, low);
    }
    Ok(())
}

// Up to which key, unless to the greatest.
fn push_to(text: &mut Vec<u8>, high: i64) -> Result<(), AllocError>
    ensures { OnOk result (text.new.items ≡ text.old.items ++ to_text high) }
{
    if high < GREATEST {
        text.extend_from_slice(b" to ")?;
        return push_key(text, high);
    }
    Ok(())
}

// Whether some key is none of the range.
fn is_narrow(range: KeyRange) -> bool
    ensures { result ≡ is_narrow range }
{
    range.low > LEAST || range.high < GREATEST
}

// The range of keys, unless it has all.
#[tactic(auto, unfolding(crate::specs::ProfileText::keys_text))]
fn push_keys(text: &mut Vec<u8>, keys: Option<KeyRange>) -> Result<(), AllocError>
    ensures { OnOk result (text.new.items ≡ text.old.items ++ keys_text keys) }
{
    let Some(range) = keys else {
        return text.extend_from_slice(b", no key passes");
    };
    if is_narrow(range) {
        text.extend_from_slice(b", keys")?;
        push_from(text, range.low)?;
        return push_to(text, range.high);
    }
    Ok(())
}

// The name of the table of this number.
fn table_name(catalogue: &Catalogue, table: u32) -> &[u8]
    ensures { result.now ≡ table_name catalogue.now table }
{
    match catalogue.tables.get().get(table as usize) {
        Some(schema) => schema.name.bytes(),
        None => &[],
    }
}

// A number, after its label.
#[tactic(auto, unfolding(crate::specs::ProfileText::count_text))]
fn push_count(text: &mut Vec<u8>, label: &[u8], number: u64) -> Result<(), AllocError>
    ensures { OnOk result (text.new.items ≡ text.old.items ++ count_text label.now number) }
{
    text.extend_from_slice(label)?;
    push_number(text, number)?;
    text.extend_from_slice(b"\n")
}

// The last digit.
fn digit(number: u64) -> u8
    ensures { result ≡ digit number }
{
    b'0' + (number % 10) as u8
}

// Milliseconds as seconds, with three digits after the point.
#[tactic(auto, unfolding(crate::specs::ProfileText::seconds_text))]
fn push_seconds(text: &mut Vec<u8>, milliseconds: u64) -> Result<(), AllocError>
    ensures { OnOk result (text.new.items ≡ text.old.items ++ seconds_text milliseconds) }
{
    push_number(text, milliseconds / 1_000)?;
    text.push(b'.')?;
    text.push(digit(milliseconds / 100))?;
    text.push(digit(milliseconds / 10))?;
    text.push(digit(milliseconds))?;
    Ok(())
}

// How long something took, after its label, if that is known.
#[tactic(auto, unfolding(crate::specs::ProfileText::seconds_line))]
fn push_time(text: &mut Vec<u8>, label: &[u8], time: Option<u64>) -> Result<(), AllocError>
    ensures { OnOk result (text.new.items ≡ text.old.items ++ seconds_line label.now time) }
{
    let Some(milliseconds) = time else {
        return Ok(());
    };
    text.extend_from_slice(label)?;
    push_seconds(text, milliseconds)?;
    text.extend_from_slice(b" s\n")
}

// How the execution was divided.
fn division_text(division: Division) -> &'static [u8]
    ensures { result.now ≡ division_text division }
{
    match division {
        Division::Undivided => b"one pass",
        Division::ByValue => b"by value",
        Division::InBuckets => b"by value, in buckets",
        Division::ByJoinKey => b"by join key, then by group",
        Division::ByTime => b"by time",
    }
}

// The end of its line.
fn ranges_text(has_ranges: bool) -> &'static [u8]
    ensures { result.now ≡ ranges_text has_ranges }
{
    if has_ranges {
        b", then by ranges of values\n"
    } else {
        b"\n"
    }
}

// How the execution was divided, in a line.
#[tactic(auto, unfolding(crate::specs::ProfileText::division_line))]
fn push_division(text: &mut Vec<u8>, run: &RunFigures) -> Result<(), AllocError>
    ensures { OnOk result (text.new.items ≡ text.old.items ++ division_line run.now) }
{
    text.extend_from_slice(b"  partitioning   ")?;
    text.extend_from_slice(division_text(run.division))?;
    text.extend_from_slice(ranges_text(run.has_ranges))?;
    Ok(())
}

// What the run reports of itself.
#[tactic(auto, unfolding(crate::specs::ProfileText::run_text))]
fn push_run(text: &mut Vec<u8>, run: &RunFigures) -> Result<(), AllocError>
    ensures { OnOk result (text.new.items ≡ text.old.items ++ run_text run.now) }
{
    push_count(text, b"  workers        ", u64::from(run.workers))?;
    push_division(text, run)?;
    push_count(text, b"  pieces         ", run.pieces)?;
    push_time(text, b"  loading        ", run.loading)?;
    push_time(text, b"  answering      ", run.answering)?;
    push_time(text, b"  printing       ", run.printing)
}

// The name of the column of this number in a table.
fn column_name(catalogue: &Catalogue, column: ColumnFigures) -> &[u8]
    ensures { result.now ≡ column_name catalogue.now column }
{
    match catalogue.tables.get().get(column.table as usize) {
        Some(schema) => match schema.columns.get().get(column.column as usize) {
            Some(column) => column.name.bytes(),
            None => &[],
        },
        None => &[],
    }
}

// A column, after its table.
#[tactic(auto, unfolding(crate::specs::ProfileText::column_text))]
fn push_column(
    text: &mut Vec<u8>,
    catalogue: &Catalogue,
    column: ColumnFigures,
) -> Result<(), AllocError>
    ensures { OnOk result (text.new.items ≡ text.old.items ++ column_text catalogue.now column) }
{
    text.extend_from_slice(table_name(catalogue, column.table))?;
    text.push(b'.')?;
    text.extend_from_slice(column_name(catalogue, column))
}

// A link, with a comma and a space after it.
#[tactic(auto, unfolding(crate::specs::ProfileText::link_text))]
fn push_link(
    text: &mut Vec<u8>,
    catalogue: &Catalogue,
    link: &LinkFigures,
) -> Result<(), AllocError>
    ensures { OnOk result (text.new.items ≡ text.old.items ++ link_text catalogue.now link.now) }
{
    push_column(text, catalogue, link.left)?;
    text.extend_from_slice(b" = ")?;
    push_column(text, catalogue, link.right)?;
    text.extend_from_slice(b", ")
}

// The links of a join.
fn push_links(
    text: &mut Vec<u8>,
    catalogue: &Catalogue,
    links: &[LinkFigures],
) -> Result<(), AllocError>
    ensures { OnOk result (text.new.items ≡ text.old.items ++ flat_map (link_text catalogue.now) links.now) }
{
    'links: for link in links {
        push_link(text, catalogue, link)?;
    }
    Ok(())
}

// Two spaces for each level of the tree from the second one on, which has four.
fn indent(depth: u32) -> &'static [u8]
    ensures { result.now ≡ indent depth }
{
    match depth {
        1 => b"    ",
        2 => b"      ",
        3 => b"        ",
        4 => b"          ",
        5 => b"            ",
        _ => b"              ",
    }
}

// The number of rows that an operator made, and the end of its line.
#[tactic(auto, unfolding(crate::specs::ProfileText::rows_text))]
fn push_rows(text: &mut Vec<u8>, rows: u128) -> Result<(), AllocError>
    ensures { OnOk result (text.new.items ≡ text.old.items ++ rows_text rows) }
{
    text.extend_from_slice(b"rows ")?;
    text.extend_from_slice(Buffer::new().format(rows).as_bytes())?;
    text.extend_from_slice(b")\n")
}

// A column of GROUP BY, with a comma and a space after it.
#[tactic(auto, unfolding(crate::specs::ProfileText::group_text))]
fn push_group(
    text: &mut Vec<u8>,
    catalogue: &Catalogue,
    column: ColumnFigures,
) -> Result<(), AllocError>
    ensures { OnOk result (text.new.items ≡ text.old.items ++ group_text catalogue.now column) }
{
    text.extend_from_slice(b"by ")?;
    push_column(text, catalogue, column)?;
    text.extend_from_slice(b", ")
}

// The columns of GROUP BY.
fn push_group_columns(
    text: &mut Vec<u8>,
    catalogue: &Catalogue,
    columns: &[ColumnFigures],
) -> Result<(), AllocError>
    ensures { OnOk result (text.new.items ≡ text.old.items ++ flat_map (group_text catalogue.now) columns.now) }
{
    'columns: for column in columns {
        push_group(text, catalogue, *column)?;
    }
    Ok(())
}

// An aggregation and its columns.
#[tactic(auto, unfolding(crate::specs::ProfileText::aggregate_name))]
fn push_aggregate(
    text: &mut Vec<u8>,
    catalogue: &Catalogue,
    columns: &List<ColumnFigures>,
) -> Result<(), AllocError>
    ensures { OnOk result (text.new.items ≡ text.old.items ++ aggregate_name catalogue.now columns.now) }
{
    text.extend_from_slice(b"aggregate  (")?;
    push_group_columns(text, catalogue, columns.get())
}

// The name of an operator, and its columns.
#[tactic(auto, unfolding(crate::specs::ProfileText::operator_name))]
fn push_operator_name(
    text: &mut Vec<u8>,
    catalogue: &Catalogue,
    operator: &Operator,
) -> Result<(), AllocError>
    ensures { OnOk result (text.new.items ≡ text.old.items ++ operator_name catalogue.now operator.now) }
{
    match operator {
        Operator::Aggregate(columns) => push_aggregate(text, catalogue, columns),
        Operator::Filter => text.extend_from_slice(b"filter  ("),
        Operator::Join(links) => {
            text.extend_from_slice(b"join  (")?;
            push_links(text, catalogue, links.get())
        }
    }
}

// An operator.
#[tactic(auto, unfolding(crate::specs::ProfileText::operator_text))]
fn push_operator(
    text: &mut Vec<u8>,
    catalogue: &Catalogue,
    figures: &OperatorFigures,
) -> Result<(), AllocError>
    ensures { OnOk result (text.new.items ≡ text.old.items ++ operator_text catalogue.now figures.now) }
{
    text.extend_from_slice(indent(figures.depth))?;
    push_operator_name(text, catalogue, &figures.operator)?;
    push_rows(text, u128::from(figures.rows))
}

// Operators, one in a line.
fn push_operators(
    text: &mut Vec<u8>,
    catalogue: &Catalogue,
    operators: &[OperatorFigures],
) -> Result<(), AllocError>
    ensures { OnOk result (text.new.items ≡ text.old.items ++ flat_map (operator_text catalogue.now) operators.now) }
{
    'operators: for figures in operators {
        push_operator(text, catalogue, figures)?;
    }
    Ok(())
}

// A source: its table, the rows that it has, those that are kept, and their keys.
#[tactic(auto, unfolding(crate::specs::ProfileText::source_text))]
fn push_source(
    text: &mut Vec<u8>,
    catalogue: &Catalogue,
    source: &SourceFigures,
) -> Result<(), AllocError>
    ensures { OnOk result (text.new.items ≡ text.old.items ++ source_text catalogue.now source.now) }
{
    text.extend_from_slice(b"scan ")?;
    text.extend_from_slice(table_name(catalogue, source.table))?;
    text.extend_from_slice(b"  (table ")?;
    push_number(text, source.read as u64)?;
    text.extend_from_slice(b", kept ")?;
    push_number(text, source.kept as u64)?;
    push_keys(text, source.keys)?;
    text.extend_from_slice(b", ")
}

// A scan of the source.
fn push_scan_of(
    text: &mut Vec<u8>,
    catalogue: &Catalogue,
    source: &SourceFigures,
    scan: &ScanFigures,
) -> Result<(), AllocError>
    ensures { OnOk result (text.new.items ≡ text.old.items ++ scan_of catalogue.now scan.now source.now) }
{
    text.extend_from_slice(indent(scan.depth))?;
    push_source(text, catalogue, source)?;
    push_rows(text, u128::from(scan.rows))
}

// A scan of one of these sources.
#[tactic(auto, unfolding(crate::specs::ProfileText::scan_text))]
fn push_scan(
    text: &mut Vec<u8>,
    catalogue: &Catalogue,
    sources: &[SourceFigures],
    scan: &ScanFigures,
) -> Result<(), AllocError>
    ensures { OnOk result (text.new.items ≡ text.old.items ++ scan_text catalogue.now sources.now scan.now) }
{
    match sources.get(scan.source) {
        Some(source) => push_scan_of(text, catalogue, source, scan),
        None => Ok(()),
    }
}

// Scans, one in a line.
fn push_scans(
    text: &mut Vec<u8>,
    catalogue: &Catalogue,
    sources: &[SourceFigures],
    scans: &[ScanFigures],
) -> Result<(), AllocError>
    ensures { OnOk result (text.new.items ≡ text.old.items ++ flat_map (scan_text catalogue.now sources.now) scans.now) }
{
    'scans: for scan in scans {
        push_scan(text, catalogue, sources, scan)?;
    }
    Ok(())
}

// A query: its operators from the last one down.
#[tactic(auto, unfolding(crate::specs::ProfileText::query_text))]
fn push_query(
    text: &mut Vec<u8>,
    catalogue: &Catalogue,
    query: &QueryFigures,
) -> Result<(), AllocError>
    ensures { OnOk result (text.new.items ≡ text.old.items ++ query_text catalogue.now query.now) }
{
    push_operators(text, catalogue, query.tree.operators.get())?;
    push_scans(text, catalogue, query.sources.get(), query.tree.scans.get())
}

// The last operator, whose rows are those of the answer.
#[tactic(auto, unfolding(crate::specs::ProfileText::coalesce_text))]
fn push_coalesce(text: &mut Vec<u8>, rows: u128) -> Result<(), AllocError>
    ensures { OnOk result (text.new.items ≡ text.old.items ++ coalesce_text rows) }
{
    text.extend_from_slice(b"  coalesce  (")?;
    push_rows(text, rows)
}

// EXCEPT ALL, if the plan has one.
fn push_except(text: &mut Vec<u8>, right: Option<&ExceptFigures>) -> Result<(), AllocError>
    ensures { OnOk result (text.new.items ≡ text.old.items ++ except_text (option_copied right.entry)) }
{
    match right {
        Some(except) => {
            text.extend_from_slice(b"    except all  (")?;
            push_rows(text, u128::from(except.rows))
        }
        None => Ok(()),
    }
}

// The query after EXCEPT ALL, if the plan has one.
fn push_right(
    text: &mut Vec<u8>,
    catalogue: &Catalogue,
    right: Option<&ExceptFigures>,
) -> Result<(), AllocError>
    ensures { OnOk result (text.new.items ≡ text.old.items ++ right_text catalogue.now (option_copied right.entry)) }
{
    match right {
        Some(except) => push_query(text, catalogue, &except.query),
        None => Ok(()),
    }
}

// The operators of the plan as a tree: below each operator are those whose rows it takes.
#[tactic(auto, unfolding(crate::specs::ProfileText::tree_text))]
fn push_tree(text: &mut Vec<u8>, catalogue: &Catalogue, figures: &Figures) -> Result<(), AllocError>
    ensures { OnOk result (text.new.items ≡ text.old.items ++ tree_text catalogue.now figures.now) }
{
    push_coalesce(text, figures.rows)?;
    push_except(text, figures.right.as_ref())?;
    push_query(text, catalogue, &figures.left)?;
    push_right(text, catalogue, figures.right.as_ref())
}

/// The figures as lines, with the names that the tables have in the catalogue, instants in the form, and what the run reports of
/// itself. `AllocError` if an allocation failed.
pub(crate) fn figures_text(
    alloc: Global,
    catalogue: &Catalogue,
    figures: &Figures,
    run: &RunFigures,
    form: Form,
) -> Result<Vec<u8>, AllocError>
    ensures { IfOk result (λ text. text.items ≡ figures_text form catalogue.now figures.now run.now) }
{
    let mut text = Vec::new(alloc);
    push_window(&mut text, &figures.window, form)?;
    push_tree(&mut text, catalogue, figures)?;
    push_run(&mut text, run)?;
    Ok(text)
}
