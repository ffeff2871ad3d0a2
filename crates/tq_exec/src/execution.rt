// Executes plans over snapshots and over tables of rows, on one thread.

ghost use Rattle.std.specs.Prelude.{◌≡◌, IfOk, ℕ, length, map};
ghost use Rattle.std.specs.List.{list_any};
ghost use Rattle.tq_base.specs.Fragments.{copies};
ghost use Rattle.tq_event.specs.Tables.{lists_of};
ghost use Rattle.tq_condition.specs.Ordinary.{HasInside, IsEmptyOutside};
ghost use Rattle.tq_agg.specs.Grouping.{Row};
ghost use Rattle.tq_exec.specs.Answers.{times_in, times_within, IsAnswerOver, IsTablesAnswer};
ghost use Rattle.tq_plan.specs.ValidPlans.{is_aggregate, no_group, AreQueriesOver, IsPlanOver, IsQueryOver};
ghost use Rattle.tq_exec.specs.OutputPlaces.{output_place};
ghost use Rattle.tq_exec.specs.Fitting.{AreAllFitting, AreFitting};

use crate::aggregate::{counted_rows, grouped_rows};
use crate::counters::{Counters, QueryCounters};
use crate::scan::scan_filter_join;
use crate::snapshot::{Snapshot, TablesOfRows};
use std::alloc::{AllocError, Global};
use tq_base::{Catalogue, List, Period, Relation, Rows};
use tq_ops::except_all;
use tq_plan::laws::queries_are_valid;
use tq_plan::{Output, Plan, QueryPlan, copy_names};
use tq_table::{Table, coalesce};

fn is_aggregate(output: &Output) -> bool
    ensures { result ≡ is_aggregate output.now }
{
    match output {
        Output::Column(_) => false,
        Output::Count => true,
        Output::Sum(_) => true,
    }
}

fn has_aggregate(outputs: &[Output]) -> bool
    ensures { result ≡ list_any is_aggregate outputs.now }
{
    outputs.iter().any(|output| is_aggregate(output))
}

fn has_no_group(group: &[u32]) -> bool
    ensures { result ≡ no_group group.now }
{
    match group {
        [] => true,
        _ => false,
    }
}

fn place_of(output: Output) -> u32
    ensures { result ≡ output_place output }
{
    match output {
        Output::Column(place) => place,
        Output::Count => 0,
        Output::Sum(place) => place,
    }
}

fn places_of(alloc: Global, outputs: &[Output]) -> Result<Vec<u32>, AllocError>
    ensures { IfOk result (λ places. places.items ≡ map output_place outputs.now) }
{
    outputs
        .iter()
        .map(|output| place_of(*output))
        .collect(alloc)
}

// The rows of a query at each instant of the window.
fn query_rows<'a, S: Snapshot<'a>>(
    alloc: Global,
    snapshot: &S,
    query: &QueryPlan,
    window: &Period,
    counters: &QueryCounters,
) -> Result<Relation<'a>, AllocError>
    requires fit { AreFitting (S.catalogue snapshot.now) (S.valid snapshot.now) }
    requires query { IsQueryOver (S.catalogue snapshot.now) query.now }
    ensures width { IfOk result (λ out. out.width ≡ length query.now.outputs) }
    ensures inside { IfOk result (λ out. HasInside window.now out.items (λ t v. times_in (S.valid snapshot.now) query.now v t)) }
    ensures outside { IfOk result (λ out. IsEmptyOutside window.now out.items) }
{
    if !has_no_group(query.group.get()) {
        return grouped_rows(alloc, snapshot, query, window, counters);
    }
    if has_aggregate(query.outputs.get()) {
        return counted_rows(alloc, snapshot, query, window, counters);
    }
    let places = places_of(alloc, query.outputs.get())?;
    scan_filter_join(alloc, snapshot, query, window, counters)?.project(alloc, &places)
}

/// The rows of a plan at each instant of a period: those of the left query, less those of the right one. Requires that both
/// queries of the plan are queries over the snapshot's catalogue. The counters get the rows of each operator. `AllocError` if an
/// allocation failed.
pub(crate) fn execute<'a, S: Snapshot<'a>>(
    alloc: Global,
    snapshot: &S,
    plan: &Plan,
    period: &Period,
    counters: &Counters,
) -> Result<Relation<'a>, AllocError>
    requires { AreQueriesOver (S.catalogue snapshot.now) plan.now }
    ensures width { IfOk result (λ rows. rows.width ≡ length plan.now.left.outputs) }
    ensures rows { (v : Row) (t : ℕ) → IfOk result (λ rows. copies rows.items v t ≡ times_within (S.valid snapshot.now) plan.now period.now v t) }
{
    snapshot.fit();
    let left = query_rows(alloc, snapshot, &plan.left, period, &counters.left)?;
    counters.left.add_rows(left.len());
    match &plan.right {
        None => Ok(left),
        Some(right) => {
            let right = query_rows(alloc, snapshot, right, period, &counters.right)?;
            counters.right.add_rows(right.len());
            let rows = except_all(alloc, left, &right, period);
            counters.add_difference(&rows);
            rows
        }
    }
}

/// The answer of a plan over a snapshot. Requires that `plan` made the plan over the snapshot's catalogue. `AllocError` if an
/// allocation failed.
pub(crate) fn answer_over<'a, S: Snapshot<'a>>(
    alloc: Global,
    snapshot: &S,
    plan: &Plan,
    counters: &Counters,
) -> Result<Table<'a>, AllocError>
    requires { IsPlanOver (S.catalogue snapshot.now) plan.now }
    ensures { IfOk result (IsAnswerOver (S.valid snapshot.now) plan.now) }
{
    queries_are_valid();
    let rows = execute(alloc, snapshot, plan, &plan.window, counters)?;
    let rows = coalesce(alloc, rows)?;
    Ok(Table {
        columns: List::of(copy_names(alloc, plan.columns())?),
        rows,
    })
}

/// The answer of a plan over tables of rows, which have the numbers of the tables in the catalogue. Requires that each row fits
/// its table, and that `plan` made the plan over the catalogue. `AllocError` if an allocation failed.
pub fn answer_tables<'a>(
    alloc: Global,
    catalogue: &'a Catalogue,
    tables: &'a [Rows],
    plan: &Plan,
) -> Result<Table<'a>, AllocError>
    requires fit { AreAllFitting catalogue.now (lists_of tables.now) }
    requires plan { IsPlanOver catalogue.now plan.now }
    ensures { IfOk result (IsTablesAnswer (lists_of tables.now) plan.now) }
{
    let counters = Counters::new();
    answer_over(alloc, &TablesOfRows { catalogue, tables }, plan, &counters)
}

/// A copy of the table that owns its values. `AllocError` if an allocation failed.
pub fn to_owned<'b>(alloc: Global, table: Table<'_>) -> Result<Table<'b>, AllocError>
    ensures { IfOk result (λ copy. copy ≡ table.entry) }
{
    Ok(Table {
        rows: table.rows.to_owned(alloc)?,
        columns: table.columns,
    })
}
