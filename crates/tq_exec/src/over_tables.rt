// The answer of a plan over tables of rows, made by several workers.

ghost use Rattle.std.specs.Prelude.{◌≤◌, IfOk};
ghost use Rattle.tq_event.specs.Tables.{lists_of};
ghost use Rattle.tq_exec.specs.Answers.{IsTablesAnswer};
ghost use Rattle.tq_exec.specs.Fitting.{AreAllFitting};
ghost use Rattle.tq_plan.specs.ValidPlans.{AreQueriesOver, IsPlanOver};

use crate::answer_parts::{Wanted, rows_of};
use crate::execution::answer_tables;
use crate::parallel::execute_parallel;
use crate::snapshot::TablesOfRows;
use crate::workers::Workers;
use std::alloc::{AllocError, Global};
use std::thread::Threads;
use tq_base::{Catalogue, List, Relation, Rows};
use tq_plan::laws::queries_are_valid;
use tq_plan::{Plan, copy_names};
use tq_run::Gate;
use tq_table::{ResultRows, Table, chained};

/// The answer of a plan over tables of rows, made by these workers, with copies of the values. `AllocError` if an
/// allocation failed.
pub(crate) fn owned_answer<'b, R: Threads + Sync, G: Gate + Sync>(
    workers: &Workers<'_, R, G>,
    all: TablesOfRows<'_>,
    plan: &Plan,
) -> Result<Table<'b>, AllocError>
    requires over { AreQueriesOver all.catalogue.now plan.now }
    ensures { IfOk result (IsTablesAnswer (lists_of all.entry.tables.now) plan.now) }
{
    let alloc = workers.alloc;
    let made = execute_parallel(workers, all, plan, Wanted::Rows)?;
    let lists = rows_of(alloc, made)?;
    let rows = chained(alloc, plan.left.outputs.get().len(), lists)?;
    Ok(Table {
        columns: List::of(copy_names(alloc, plan.columns())?),
        rows: ResultRows::of(Relation::owned(alloc, rows)?),
    })
}

/// The answer of a plan over tables of rows, made by 1 to 16 workers including the calling thread. It is the answer of
/// `answer_tables`. The gate gets each piece of work before it runs. `AllocError` if an allocation failed.
pub fn answer_among<'a, R: Threads + Sync, G: Gate + Sync>(
    rt: &R,
    alloc: Global,
    catalogue: &'a Catalogue,
    tables: &'a [Rows],
    plan: &Plan,
    workers: u32,
    gate: &G,
) -> Result<Table<'a>, AllocError>
    requires fit { AreAllFitting catalogue.now (lists_of tables.now) }
    requires plan { IsPlanOver catalogue.now plan.now }
    requires some { 1 ≤ workers }
    requires at_most { workers ≤ 16 }
    ensures { IfOk result (IsTablesAnswer (lists_of tables.now) plan.now) }
{
    if workers == 1 {
        return answer_tables(alloc, catalogue, tables, plan);
    }
    queries_are_valid();
    let workers = Workers::new(rt, alloc, workers, gate);
    owned_answer(&workers, TablesOfRows { catalogue, tables }, plan)
}
