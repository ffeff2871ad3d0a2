//! Partial aggregates, added: the rows of one group make one row at each instant.

ghost use Rattle.std.specs.Prelude.{◌≡◌, ◌≤◌, ◌-◌, ◌+◌, ◌++◌, All, FitsSigned, IfOk, IsTrue, OnOk, length, min};
ghost use Rattle.std.specs.Int.{w64};
ghost use Rattle.std.specs.List.{range_with_len};
ghost use Rattle.tq_base.specs.declared.fragment.Fragment.{Fragment};
ghost use Rattle.tq_base.specs.declared.period.Period.{Period as AnyPeriod};
ghost use Rattle.tq_base.specs.declared.period.TheConstants.{FOREVER};
ghost use Rattle.tq_base.specs.Fragments.{at, occurrences};
ghost use Rattle.tq_base.specs.Layers.{IsLayers};
ghost use Rattle.tq_base.specs.Relations.{values_at_number};
ghost use Rattle.tq_base.specs.RowValues.{number_of, value_at};
ghost use Rattle.tq_condition.specs.Ordinary.{HasInside, IsEmptyOutside};
ghost use Rattle.tq_agg.specs.Grouping.{AreSummable};
ghost use Rattle.tq_split.specs.declared.combine.Combine.TheVariants.{Add};
ghost use Rattle.tq_split.specs.Adding.{added_rows, combined};

use std::alloc::{AllocError, Global};
use tq_agg::group_count_sum;
use tq_base::{Bound, Instant, Period, Relation, Row, Rows, Value, ValueRef};
use tq_table::{ResultRows, coalesce};

// Why rows were not added: a number has more than 64 signed bits, or an allocation failed.
#[derive(Clone, Copy)]
pub(crate) enum AddFault {
    Number,
    OutOfMemory,
}

impl From<AllocError> for AddFault {
    fn from(_error: AllocError) -> AddFault {
        AddFault::OutOfMemory
    }
}

// The greater of `last` and the number of the period's end.
fn later(last: u64, period: &Period) -> u64
    ensures kept { last ≤ result }
    ensures bound { last ≤ FOREVER → result ≤ FOREVER }
    ensures end { period.now.end ≤ result }
{
    let end = period.end.number();
    if last < end { end } else { last }
}

// The number of the last end, at least 1.
fn last_end(periods: &[Period]) -> u64
    ensures positive { 1 ≤ result }
    ensures bound { result ≤ FOREVER }
    ensures last { All (λ (period : AnyPeriod). period.end ≤ result) periods.now }
{
    let mut last: u64 = 1;
    'periods: for period in periods {
        last = later(last, period);
    }
    last
}

// The period from the first instant to the last end.
fn span_of(periods: &[Period]) -> Period
    ensures start { result.start ≡ 0 }
    ensures end { All (λ (period : AnyPeriod). period.end ≤ result.end) periods.now }
{
    let (Some(start), Some(end)) = (Instant::new(0), Bound::new(last_end(periods))) else {
        unreachable!()
    };
    let Some(span) = Period::new(start, end) else {
        unreachable!()
    };
    span
}

// Whether the value is a number of 64 signed bits, or a text.
fn is_summable(value: &Value) -> bool
    ensures { IsTrue result → FitsSigned w64 (number_of value.now) }
{
    match value.as_ref() {
        ValueRef::Int(number) => i64::try_from(number).is_ok(),
        ValueRef::Text(_) => true,
    }
}

fn is_summable_at(row: &Row<'_>, column: &u32) -> bool
    ensures { IsTrue result → FitsSigned w64 (number_of (value_at row.now column.now)) }
{
    is_summable(row.value(*column as usize))
}

// Whether each value of the row in the columns is a number of 64 signed bits, or a text.
fn is_row_summable(row: &Row<'_>, columns: &[u32]) -> bool
    ensures { IsTrue result → AreSummable columns.now row.now }
{
    'columns: for column in columns {
        if !is_summable_at(row, column) {
            return false;
        }
    }
    true
}

fn is_summable_in(rows: &Relation<'_>, row: usize, columns: &[u32]) -> bool
    ensures { IsTrue result → AreSummable columns.now (values_at_number rows.now.items row) }
{
    is_row_summable(&rows.row(row), columns)
}

// Whether each value of all rows in the columns is a number of 64 signed bits, or a text.
fn are_summable(rows: &Relation<'_>, columns: &[u32]) -> bool
    ensures { IsTrue result → All (λ (row : Fragment). AreSummable columns.now row.values) rows.now.items }
{
    'rows: for row in 0..rows.len() {
        if !is_summable_in(rows, row, columns) {
            return false;
        }
    }
    true
}

// Adds the numbers from `from` on to the list, up to `to`.
fn push_numbers(list: &mut Vec<u32>, from: u32, to: u32) -> Result<(), AllocError>
    ensures { OnOk result (list.new.items ≡ list.old.items ++ range_with_len from (to - from)) }
{
    'numbers: for number in from..to {
        list.push(number)?;
    }
    Ok(())
}

fn numbers_between(alloc: Global, from: u32, to: u32) -> Result<Vec<u32>, AllocError>
    ensures { IfOk result (λ numbers. numbers.items ≡ range_with_len from (to - from)) }
{
    let mut numbers = Vec::new(alloc);
    push_numbers(&mut numbers, from, to)?;
    Ok(numbers)
}

// The columns of the groups and of the sums in the rows of `group_count_sum`, which have a count between them.
fn shown_columns(alloc: Global, groups: u32, width: u32) -> Result<Vec<u32>, AllocError>
    requires { groups ≤ width }
    ensures { IfOk result (λ columns. columns.items ≡ range_with_len 0 groups ++ range_with_len (groups + 1) (width - groups)) }
{
    if width == u32::MAX {
        return Err(AllocError);
    }
    let mut columns = numbers_between(alloc, 0, groups)?;
    push_numbers(&mut columns, groups + 1, width + 1)?;
    Ok(columns)
}

fn lesser(groups: u32, width: u32) -> u32
    ensures value { result ≡ min groups width }
    ensures within { result ≤ width }
{
    if groups < width { groups } else { width }
}

// The width as a column number. `AllocError` if it has more than 32 bits.
fn width_of(rows: &Rows) -> Result<u32, AllocError>
    ensures { IfOk result (λ width. width ≡ rows.now.width) }
{
    match u32::try_from(rows.width()) {
        Ok(width) => Ok(width),
        Err(_) => Err(AllocError),
    }
}

// The rows that are made of the groups, not yet coalesced.
fn sums_of<'a>(
    alloc: Global,
    rows: &Relation<'_>,
    groups: u32,
    width: u32,
    span: &Period,
) -> Result<Relation<'a>, AddFault>
    requires { groups ≤ width }
    ensures width { IfOk result (λ out. out.width ≡ width) }
    ensures inside { IfOk result (λ out. HasInside span.now out.items (λ t v. occurrences (added_rows groups width (at rows.now.items t)) v)) }
    ensures outside { IfOk result (λ out. IsEmptyOutside span.now out.items) }
{
    let keys = numbers_between(alloc, 0, groups)?;
    let sums = numbers_between(alloc, groups, width)?;
    if !are_summable(rows, &sums) {
        return Err(AddFault::Number);
    }
    let counted = group_count_sum(alloc, rows, span, &keys, &sums)?;
    let columns = shown_columns(alloc, groups, width)?;
    Ok(Relation::owned(alloc, counted)?.project(alloc, &columns)?)
}

/// The layers of the rows that add those of each group: at each instant at which a group has rows, one row with its values, the
/// first `groups` ones, and the sum of each other column.
pub(crate) fn add_groups<'a>(
    alloc: Global,
    rows: Rows,
    groups: u32,
) -> Result<ResultRows<'a>, AddFault>
    ensures width { IfOk result (λ out. All (λ (row : Fragment). length row.values ≡ rows.width) out) }
    ensures layers { IfOk result (IsLayers (combined (Add groups) rows.width rows.items)) }
{
    let width = width_of(&rows)?;
    let span = span_of(rows.periods());
    let rows = Relation::owned(alloc, rows)?;
    let sums = sums_of(alloc, &rows, lesser(groups, width), width, &span)?;
    Ok(coalesce(alloc, sums)?)
}
