// The figures of an executed plan over tables of rows.

ghost use Rattle.std.specs.Prelude.{◌≡◌, ◌<◌, ◌≤◌, IfOk, cond, count_by, length, slice_index_or};
ghost use Rattle.tq_base.specs.declared.fragment.Fragment.{Fragment};
ghost use Rattle.tq_base.specs.KeyRanges.{key_of};
ghost use Rattle.tq_base.specs.Keys.{is_overlap};
ghost use Rattle.tq_event.specs.Tables.{lists_of, rows_in};
ghost use Rattle.tq_profile.specs.Figures.{AreFigures, AreSourceFigures, IsQueryFigures, IsRightFigures, IsSourceFigures, is_in_range, is_kept};
ghost use Rattle.std.specs.Option.{option_copied};

use crate::operators::{QueryOperators, query_operators};
use std::alloc::{AllocError, Global};
use tq_base::{KeyRange, List, Period, Rows, ValueRef};
use tq_exec::{Counters, QueryCounters, TablesOfRows};
use tq_plan::{Plan, QueryPlan, QuerySource};

/// Of a source: its table's number, how many rows the table has, which of their keys the query can need, and how many of
/// the rows are valid at some instant of the window and have such a key.
#[derive(Clone, Copy, Debug)]
pub(crate) struct SourceFigures {
    pub(crate) table: u32,
    pub(crate) read: usize,
    pub(crate) keys: Option<KeyRange>,
    pub(crate) kept: usize,
}

/// Of a query: its sources in the order of FROM, and its operators.
#[derive(Drop, Debug)]
pub(crate) struct QueryFigures {
    pub(crate) sources: List<SourceFigures>,
    pub(crate) tree: QueryOperators,
}

/// Of the query after EXCEPT ALL, and of EXCEPT ALL itself the number of rows that it made.
#[derive(Drop, Debug)]
pub(crate) struct ExceptFigures {
    pub(crate) rows: u64,
    pub(crate) query: QueryFigures,
}

/// Of a plan: its window, its query, the one after EXCEPT ALL, if there is one, and how many rows the answer has.
#[derive(Drop, Debug)]
pub(crate) struct Figures {
    pub(crate) window: Period,
    pub(crate) left: QueryFigures,
    pub(crate) right: Option<ExceptFigures>,
    pub(crate) rows: u128,
}

// The key of the row: the first value where that is a number, else 0.
fn key_of(rows: &Rows, row: usize) -> i128
    requires { row < length rows.now.items }
    ensures { (d : Fragment) → result ≡ key_of (slice_index_or rows.now.items row d).values }
{
    match rows.value(row, 0) {
        Some(value) => match value.as_ref() {
            ValueRef::Int(number) => number,
            ValueRef::Text(_) => 0,
        },
        None => 0,
    }
}

// Whether the key lies in the range; none does where there is no range.
fn is_in_range(keys: Option<KeyRange>, key: i128) -> bool
    ensures { result ≡ is_in_range keys key }
{
    match keys {
        Some(range) => i128::from(range.low) <= key && key <= i128::from(range.high),
        None => false,
    }
}

// Whether some instant lies in both periods.
fn is_overlap(one: &Period, other: &Period) -> bool
    ensures { result ≡ is_overlap one.now other.now }
{
    one.overlap(other).is_some()
}

// Whether the row is valid at some instant of the window, and its key lies in the range.
fn is_kept(rows: &Rows, row: usize, window: &Period, keys: Option<KeyRange>) -> bool
    requires { row < length rows.now.items }
    ensures { (d : Fragment) → result ≡ is_kept window.now keys (slice_index_or rows.now.items row d) }
{
    is_overlap(&rows.period(row), window) && is_in_range(keys, key_of(rows, row))
}

// 1 where the row is kept, else 0.
fn one_kept(rows: &Rows, row: usize, window: &Period, keys: Option<KeyRange>) -> usize
    requires { row < length rows.now.items }
    ensures value { (d : Fragment) → result ≡ cond (is_kept window.now keys (slice_index_or rows.now.items row d)) 1 0 }
    ensures one { result ≤ 1 }
{
    if is_kept(rows, row, window, keys) {
        1
    } else {
        0
    }
}

// How many of the rows are kept.
fn count_kept(rows: &Rows, window: &Period, keys: Option<KeyRange>) -> usize
    ensures { result ≡ count_by (is_kept window.now keys) rows.now.items }
{
    let mut kept = 0;
    'rows: for row in 0..rows.len() {
        kept += one_kept(rows, row, window, keys);
    }
    kept
}

// How many rows the table of this number has, and how many of them are kept; a table that is not there has none.
fn counts_of(tables: &[Rows], table: u32, window: &Period, keys: Option<KeyRange>) -> (usize, usize)
    ensures read { result.0 ≡ length (rows_in (lists_of tables.now) table) }
    ensures kept { result.1 ≡ count_by (is_kept window.now keys) (rows_in (lists_of tables.now) table) }
{
    match tables.get(table as usize) {
        Some(rows) => (rows.len(), count_kept(rows, window, keys)),
        None => (0, 0),
    }
}

// The figures of a source of the query.
fn source_figures(
    tables: &[Rows],
    query: &QueryPlan,
    source: &QuerySource,
    window: &Period,
) -> SourceFigures
    ensures { IsSourceFigures window.now query.now (lists_of tables.now) source.now result }
{
    let keys = query.keys_of(source);
    let (read, kept) = counts_of(tables, source.table, window, keys);
    SourceFigures {
        table: source.table,
        read,
        keys,
        kept,
    }
}

// The figures of each source of the query.
fn sources_figures(
    alloc: Global,
    tables: &[Rows],
    query: &QueryPlan,
    window: &Period,
) -> Result<List<SourceFigures>, AllocError>
    ensures { IfOk result (λ figures. AreSourceFigures window.now query.now (lists_of tables.now) query.now.sources figures) }
{
    let sources = query.sources.get();
    let mut figures = Vec::with_capacity(alloc, sources.len())?;
    'sources: for source in sources {
        figures.push(source_figures(tables, query, source, window))?;
    }
    Ok(List::of(figures))
}

// The figures of the query, whose first operator has this depth in the tree.
fn query_figures(
    alloc: Global,
    all: &TablesOfRows<'_>,
    query: &QueryPlan,
    window: &Period,
    counters: &QueryCounters,
    depth: u32,
) -> Result<QueryFigures, AllocError>
    ensures { IfOk result (IsQueryFigures window.now query.now (lists_of all.now.tables.now)) }
{
    let sources = sources_figures(alloc, all.tables, query, window)?;
    let tree = query_operators(alloc, all, query, window, counters, depth)?;
    Ok(QueryFigures { sources, tree })
}

// The figures of the query after EXCEPT ALL; `None` if there is no such query.
fn right_figures(
    alloc: Global,
    all: &TablesOfRows<'_>,
    query: Option<&QueryPlan>,
    window: &Period,
    counters: &Counters,
) -> Result<Option<ExceptFigures>, AllocError>
    ensures { IfOk result (IsRightFigures window.now (option_copied query.entry) (lists_of all.now.tables.now)) }
{
    match query {
        Some(query) => Ok(Some(ExceptFigures {
            rows: counters.difference(),
            query: query_figures(alloc, all, query, window, &counters.right, 2)?,
        })),
        None => Ok(None),
    }
}

/// The figures of an executed plan over tables of rows, whose answer has this number of rows. `AllocError` if an allocation
/// failed.
pub(crate) fn figures_of(
    alloc: Global,
    all: &TablesOfRows<'_>,
    plan: &Plan,
    rows: u128,
    counters: &Counters,
) -> Result<Figures, AllocError>
    ensures { IfOk result (AreFigures (lists_of all.now.tables.now) plan.now rows) }
{
    let right = right_figures(alloc, all, plan.right.as_ref(), &plan.window, counters)?;
    let depth = if right.is_some() { 2 } else { 1 };
    let left = query_figures(alloc, all, &plan.left, &plan.window, &counters.left, depth)?;
    Ok(Figures {
        window: plan.window,
        left,
        right,
        rows,
    })
}
