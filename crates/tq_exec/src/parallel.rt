//! Executes a plan over tables of rows with several workers, for `text_among` and `answer_among`. `text_with` and
//! `answer_with` do so too, once several workers have read the rows of a `Db`.
//!
//! `partitioning.rt` chooses how the work is divided. If a column partitions the plan, each partition is executed and
//! made on its own: `bucket_counts.rt` if it only counts the rows of few values, else `partitions.rt`. Otherwise the
//! rows are found first, in partitions of a join (`join_partitions.rt`) or in periods of the window
//! (`period_pieces.rt`), and then coalesced and made in ranges of their values (`output_ranges.rt`).

ghost use Rattle.std.specs.Prelude.{◌≡◌, ◌≤◌, IfOk, IfSome, length, ℕ};
ghost use Rattle.tq_agg.specs.Grouping.{Row};
ghost use Rattle.tq_base.specs.Fragments.{copies};
ghost use Rattle.tq_event.specs.Tables.{lists_of};
ghost use Rattle.tq_exec.specs.Answers.{in_tables, times_at};
ghost use Rattle.tq_exec.specs.AnswerParts.{HaveAnswer};
ghost use Rattle.tq_plan.specs.Cuts.{Tile};
ghost use Rattle.tq_plan.specs.ValidPlans.{AreQueriesOver};
ghost use Rattle.tq_exec.specs.PartitioningRules.{IsByValue, IsPartitioningOf};

use crate::answer_parts::{Made, Wanted, made_of, make_part};
use crate::bucket_counts::parts_by_bucket;
use crate::counters::Division;
use crate::execution::execute;
use crate::join_partitions::group_joined_rows;
use crate::output_ranges::parts_by_range;
use crate::partitioning::{ColumnCuts, Partitioning, partitioning_of, partitioning_of_rows};
use crate::partitions::parts_by_value;
use crate::period_pieces::pieces_of;
use crate::snapshot::TablesOfRows;
use crate::workers::Workers;
use std::alloc::{AllocError, Global};
use std::thread::Threads;
use tq_base::{Period, Relation};
use tq_plan::Plan;
use tq_run::Gate;
use tq_table::{chained, coalesce};

// The division that the counters show.
fn division_of(partitioning: &Partitioning) -> Division {
    match partitioning {
        Partitioning::ByValue(_) => Division::ByValue,
        Partitioning::ByJoinKey(_) => Division::ByJoinKey,
        Partitioning::ByTime(_) => Division::ByTime,
        Partitioning::Undivided => Division::Undivided,
    }
}

// The plan's rows, found in these periods of its window by these workers.
fn rows_by_time<'a, R: Threads + Sync, G: Gate + Sync>(
    workers: &Workers<'_, R, G>,
    all: TablesOfRows<'a>,
    plan: &Plan,
    periods: &[Period],
) -> Result<Relation<'a>, AllocError>
    requires over { AreQueriesOver all.catalogue.now plan.now }
    requires few { length periods.now ≤ 64 }
    requires tile { Tile plan.now.window periods.now }
    ensures width { IfOk result (λ rows. rows.width ≡ length plan.now.left.outputs) }
    ensures rows { (v : Row) (t : ℕ) → IfOk result (λ rows. copies rows.items v t ≡ times_at (in_tables (lists_of all.entry.tables.now)) plan.now v t) }
{
    let alloc = workers.alloc;
    let pieces = pieces_of(workers, all, plan, periods)?;
    Relation::owned(
        alloc,
        chained(alloc, plan.left.outputs.get().len(), pieces)?,
    )
}

// The plan's rows at each instant of its window, in no order, found by these workers.
fn find_rows<'a, R: Threads + Sync, G: Gate + Sync>(
    workers: &Workers<'_, R, G>,
    all: TablesOfRows<'a>,
    plan: &Plan,
    partitioning: &Partitioning,
) -> Result<Relation<'a>, AllocError>
    requires over { AreQueriesOver all.catalogue.now plan.now }
    requires of { IsPartitioningOf (length all.tables.now) plan.now partitioning.now }
    ensures width { IfOk result (λ rows. rows.width ≡ length plan.now.left.outputs) }
    ensures rows { (v : Row) (t : ℕ) → IfOk result (λ rows. copies rows.items v t ≡ times_at (in_tables (lists_of all.entry.tables.now)) plan.now v t) }
{
    match partitioning {
        Partitioning::ByJoinKey(by) => group_joined_rows(workers, all, plan, by),
        Partitioning::ByTime(periods) => rows_by_time(workers, all, plan, periods),
        Partitioning::ByValue(_) | Partitioning::Undivided => execute(
            workers.alloc,
            &all,
            plan,
            &plan.window,
            &workers.counters,
        ),
    }
}

// The layers of the rows, as one part.
fn one_part(alloc: Global, rows: Relation<'_>, wanted: Wanted) -> Result<Vec<Made>, AllocError>
    ensures { IfOk result (λ made. HaveAnswer wanted rows.entry.width (copies rows.entry.items) made.items) }
{
    let mut parts = Vec::with_capacity(alloc, 1)?;
    parts.push(make_part(alloc, coalesce(alloc, rows)?, wanted)?)?;
    made_of(alloc, parts)
}

// The parts of the layers of the rows, made by these workers; one part if there are few rows.
fn parts_of_rows<R: Threads + Sync, G: Gate + Sync>(
    workers: &Workers<'_, R, G>,
    rows: Relation<'_>,
    wanted: Wanted,
) -> Result<Vec<Made>, AllocError>
    ensures { IfOk result (λ made. HaveAnswer wanted rows.entry.width (copies rows.entry.items) made.items) }
{
    let alloc = workers.alloc;
    if workers.count == 1 || rows.len() < workers.few {
        return one_part(alloc, rows, wanted);
    }
    match parts_by_range(workers, &rows, wanted)? {
        Some(made) => {
            workers.counters.begin_ranges();
            Ok(made)
        }
        None => one_part(alloc, rows, wanted),
    }
}

// The parts of the plan's answer by the values of a column, counted in buckets if there are few values. `None` if most rows
// have values that their normalized keys do not tell apart.
fn parts_by_column<'p, R: Threads + Sync, G: Gate + Sync>(
    workers: &Workers<'_, R, G>,
    all: TablesOfRows<'p>,
    plan: &'p Plan,
    by: &'p ColumnCuts,
    wanted: Wanted,
) -> Result<Option<Vec<Made>>, AllocError>
    requires over { AreQueriesOver all.catalogue.now plan.now }
    requires by { IsByValue (length all.tables.now) plan.now by.now }
    ensures { IfOk result (λ made. IfSome made (λ parts. HaveAnswer wanted (length plan.now.left.outputs) (times_at (in_tables (lists_of all.entry.tables.now)) plan.now) parts.items)) }
{
    if let Some(made) = parts_by_bucket(workers, all, plan, by, wanted)? {
        return Ok(Some(made));
    }
    parts_by_value(workers, all, plan, by, wanted)
}

// The parts of the plan's answer: all its rows are found first, then coalesced in parts.
fn parts_of_found<R: Threads + Sync, G: Gate + Sync>(
    workers: &Workers<'_, R, G>,
    all: TablesOfRows<'_>,
    plan: &Plan,
    partitioning: &Partitioning,
    wanted: Wanted,
) -> Result<Vec<Made>, AllocError>
    requires over { AreQueriesOver all.catalogue.now plan.now }
    requires of { IsPartitioningOf (length all.tables.now) plan.now partitioning.now }
    ensures { IfOk result (λ made. HaveAnswer wanted (length plan.now.left.outputs) (times_at (in_tables (lists_of all.entry.tables.now)) plan.now) made.items) }
{
    let rows = find_rows(workers, all, plan, partitioning)?;
    parts_of_rows(workers, rows, wanted)
}

/// The parts of the plan's answer over tables of rows, in its order, made by these workers. `AllocError` if an allocation
/// failed.
pub(crate) fn execute_parallel<R: Threads + Sync, G: Gate + Sync>(
    workers: &Workers<'_, R, G>,
    all: TablesOfRows<'_>,
    plan: &Plan,
    wanted: Wanted,
) -> Result<Vec<Made>, AllocError>
    requires over { AreQueriesOver all.catalogue.now plan.now }
    ensures { IfOk result (λ made. HaveAnswer wanted (length plan.now.left.outputs) (times_at (in_tables (lists_of all.entry.tables.now)) plan.now) made.items) }
{
    let partitioning = partitioning_of(workers, &all, plan)?;
    workers.counters.begin(division_of(&partitioning));
    let Partitioning::ByValue(by) = &partitioning else {
        return parts_of_found(workers, all, plan, &partitioning, wanted);
    };
    if let Some(made) = parts_by_column(workers, all, plan, by, wanted)? {
        return Ok(made);
    }
    let partitioning = partitioning_of_rows(workers, &all, plan)?;
    workers.counters.begin(division_of(&partitioning));
    parts_of_found(workers, all, plan, &partitioning, wanted)
}
